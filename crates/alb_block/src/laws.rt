//! The law of blocks. It is the contract of a function that does nothing.

ghost use Rattle.alb_block.specs.Laws.{RowsSpanImages};

/// For a right table the rows of the instances of a type of the next degree span the images of the consequences of this type,
/// and nothing else.
pub fn rows_span_images()
    ensures { RowsSpanImages }
{}
