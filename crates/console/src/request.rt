// What the command line asks for.
ghost use Rattle.console.specs.Requests.{WritesNone, IsMisused, asked, meaning, misuse_text, word_of};
ghost use Rattle.console.specs.declared.request.Misuse.TheVariants.{NoMemory};
ghost use Rattle.console.specs.declared.request.Writes.TheVariants.{Nothing};
ghost use Rattle.std.specs.Prelude.{◌≡◌, ◌≢◌, drop, map, string_bytes, IfOk, MatchResult, Some};
ghost use Rattle.std.specs.Vec.Iter.{into_iter_items};

use anyhow::anyhow;
use std::alloc::{AllocFailed, Global};
use std::vec::IntoIter;
use std::{env, fmt};

#[derive(Drop)]
pub enum Request {
    Help,
    // `output` is the file that `-o` names.
    Run {
        files: Vec<String>,
        output: Option<String>,
    },
}

// Whether a program writes a file beside what it prints: `-o FILE` then names it.
#[derive(Clone, Copy, PartialEq, Eq)]
enum Writes {
    Nothing,
    File,
}

// Why a command line is not understood.
#[derive(Drop)]
enum Misuse {
    // `-o` is the last word.
    NoName,
    // There is no such option.
    NoOption(String),
    NoMemory,
}

impl<T: Drop> From<AllocFailed<T>> for Misuse {
    ghost from_gives = { λ _ r. r ≡ NoMemory };

    fn from(_e: AllocFailed<T>) -> Misuse {
        Misuse::NoMemory
    }
}

impl fmt::Display for Misuse {
    ghost output = { λ misuse. Some (misuse_text misuse) };

    fn fmt<W: fmt::Write>(&self, f: &mut fmt::Formatter<W>) -> fmt::Result {
        match self {
            Misuse::NoName => write!(
                f,
                "-o wants the name of a file; --help says how to use this program"
            ),
            Misuse::NoOption(option) => write!(
                f,
                "there is no option {option}; --help says how to use this program"
            ),
            Misuse::NoMemory => write!(f, "memory allocation failed"),
        }
    }
}

// What a word of the command line is.
#[derive(Clone, Copy)]
enum Word {
    AsksHelp,
    // The word behind it names the file that is written.
    NamesOutput,
    // It begins as an option does, and is none.
    Unknown,
    NamesFile,
}

impl Word {
    #[tactic(auto, unfolding(crate::specs::Requests::word_of))]
    fn of(word: &str, writes: Writes) -> Word
        ensures value { result ≡ word_of writes word.now }
        ensures none { writes ≡ Nothing → result ≢ Word.NamesOutput }
    {
        if word == "-h" || word == "--help" {
            Word::AsksHelp
        } else if writes == Writes::File && word == "-o" {
            Word::NamesOutput
        } else if word.starts_with('-') {
            Word::Unknown
        } else {
            Word::NamesFile
        }
    }
}

// `-h` or `--help` anywhere asks for help; what else begins with `-` is no option that there is; the rest are files.
pub fn read_request(rt: &HostRuntime) -> anyhow::Result<Request>
    ensures { IfOk result WritesNone }
{
    read(rt, Writes::Nothing)
}

// So for a program that writes a file beside what it prints: `-o` gives the name of that file.
pub fn read_writing_request(rt: &HostRuntime) -> anyhow::Result<Request> {
    read(rt, Writes::File)
}

fn read(rt: &HostRuntime, writes: Writes) -> anyhow::Result<Request>
    ensures { writes ≡ Nothing → IfOk result WritesNone }
{
    understand(rt.alloc(), env::args(rt)?, writes).map_err(|misuse| anyhow!("{misuse}"))
}

// What the words of the command line ask for. The first is the name by which the program was called.
#[tactic(auto, unfolding(crate::specs::Requests::meaning_from))]
fn understand(heap: Global, mut words: IntoIter<String>, writes: Writes) -> Result<Request, Misuse>
    ensures value { MatchResult result
        (λ r. meaning writes (drop 1 (map string_bytes (into_iter_items words))) ≡ asked r)
        (λ misuse. IsMisused misuse (meaning writes (drop 1 (map string_bytes (into_iter_items words))))) }
    ensures none { writes ≡ Nothing → IfOk result WritesNone }
{
    words.next();
    let mut files = Vec::new(heap);
    let mut output = None;
    while let Some(word) = words.next() {
        match Word::of(&word, writes) {
            Word::AsksHelp => return Ok(Request::Help),
            Word::NamesOutput => {
                let Some(file) = words.next() else {
                    return Err(Misuse::NoName);
                };
                output = Some(file);
            }
            Word::Unknown => return Err(Misuse::NoOption(word)),
            Word::NamesFile => files.push(word)?,
        }
    }
    Ok(Request::Run { files, output })
}
