//! The calls of a board are events of the machine that it shows. Each law is the contract of a function that does nothing.

ghost use Rattle.alb_board.specs.Laws.{OpensAsMachine, PublishIsEvent, EndIsEvent, AskIsEvent, WorkersChangeNothing};

/// What a board keeps, its degree and its end, are those of a machine: `open` begins with the first state, `publish` is its event
/// Publish where all blocks are done, `end` is End, a shot of `ask` is the answer to Ask in that turn, and the workers' events
/// change nothing that is kept.
pub fn calls_are_events()
    ensures opens { OpensAsMachine }
    ensures publishes { PublishIsEvent }
    ensures ends { EndIsEvent }
    ensures asks { AskIsEvent }
    ensures works { WorkersChangeNothing }
{}
