//! The arguments of the program.

ghost use Rattle.std.specs.Prelude.{◌≡◌, map, string_bytes};
ghost use Rattle.std.specs.List.{list_all};
ghost use Rattle.std.specs.Char.{is_ascii_digit};
ghost use Rattle.p3_util_run.specs.Words.{command_of, side_of};

/// What the program does with its list.
#[derive(Drop)]
pub enum Command {
    /// Put it into the order of reversed index bits.
    Revbits,
    /// Transpose it, a matrix of `height` rows of `width` items.
    Transpose { width: usize, height: usize },
    /// Put its rows of `width` items into the order of reversed index bits.
    Revrows { width: usize },
}

impl Command {
    /// The command that the arguments name, or `None` if they name none.
    pub fn from_words(words: &[String]) -> Option<Command>
        ensures { result ≡ command_of (map string_bytes words.now) }
    {
        match words {
            [name] if name.as_str() == "revbits" => Some(Command::Revbits),
            [name, width] if name.as_str() == "revrows" => Some(Command::Revrows {
                width: side(width.as_str())?,
            }),
            [name, width, height] if name.as_str() == "transpose" => Some(Command::Transpose {
                width: side(width.as_str())?,
                height: side(height.as_str())?,
            }),
            _ => None,
        }
    }
}

/// The number that an argument of decimal digits stands for, if it fits 64 bits.
fn side(word: &str) -> Option<usize>
    ensures { result ≡ side_of word.now }
{
    if is_all_digits(word) {
        word.parse::<usize>().ok()
    } else {
        None
    }
}

fn is_all_digits(word: &str) -> bool
    ensures { result ≡ list_all is_ascii_digit word.now }
{
    word.bytes().all(|byte| byte.is_ascii_digit())
}
