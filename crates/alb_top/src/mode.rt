ghost use Rattle.std.specs.Prelude.{◌≡◌, map, option_map};
ghost use Rattle.alb_top.specs.Does.{mode_of_word, mode_named, sample_of, script_form};

use alb_script::Form;
use alb_words::number;

/// What the words of the command line name: a mode of the program, with its arguments.
#[derive(Clone, Copy, Debug, PartialEq, Eq)]
pub enum Mode {
    /// Builds a problem's table and answers questions.
    Batch,
    /// Judges claims by their evidence.
    Check,
    /// Makes this many polynomials from their number, and counts their answers.
    Sample(u64),
}

// The mode of one word.
fn mode_of_word(word: &str) -> Option<Mode>
    ensures { result ≡ mode_of_word word.now }
{
    match word {
        "batch" => Some(Mode::Batch),
        "check" => Some(Mode::Check),
        _ => None,
    }
}

// A sample of 1 to 1,000,000 polynomials.
fn sample_of(count: Option<u64>) -> Option<Mode>
    ensures { result ≡ sample_of count }
{
    match count {
        Some(n) if 1 <= n && n <= 1_000_000 => Some(Mode::Sample(n)),
        _ => None,
    }
}

impl Mode {
    /// The mode that the words behind the options name, None where they name none.
    pub fn of(words: &[&str]) -> Option<Mode>
        ensures { result ≡ mode_named (map (λ s. s.now) words.now) }
    {
        match words {
            [word] => mode_of_word(word),
            [word, count] if *word == "sample" => sample_of(number(count)),
            _ => None,
        }
    }

    /// The form of the script that this mode reads, None where it reads no script.
    pub fn script_form(self) -> Option<Form>
        ensures { result ≡ script_form self }
    {
        match self {
            Mode::Batch => Some(Form::Batch),
            Mode::Check => Some(Form::Check),
            Mode::Sample(_) => None,
        }
    }
}
