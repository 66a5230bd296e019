//! What a line of a table says.

use crate::fault::Fault;
use crate::setup::WatcherName;
use nm_outside::{CabinetCall, CabinetFail, SinkFail};
use nm_top::Status;

/// A part of the bytes of a file or of a printed text.
#[derive(Clone, Copy)]
pub enum Piece<'a> {
    /// A text and a line break.
    Line(&'a str),
    /// A text.
    Text(&'a str),
    /// The bytes that hexadecimal digits spell.
    Hex(&'a str),
    /// So many copies of named bytes.
    Copies { count: u32, name: &'a str },
    /// So many of the first of named bytes.
    Front { count: u32, name: &'a str },
    /// The digest of named bytes.
    Digest { name: &'a str },
    /// The digest of all that comes before it.
    Closing,
}

/// Something that fails.
#[derive(Clone, Copy)]
pub enum Fail {
    Cabinet(CabinetFail),
    Sink(SinkFail),
    /// The take of this number.
    Source(u32),
}

/// A line. One that begins bytes may have their first piece with it.
#[derive(Clone, Copy)]
pub enum Line<'a> {
    /// A blank line, or a comment.
    Nothing,
    Bytes {
        name: &'a str,
        first: Option<Piece<'a>>,
    },
    Scene,
    Row {
        title: &'a str,
    },
    Room {
        count: u32,
    },
    Sink {
        count: u32,
    },
    File {
        name: &'a str,
        first: Option<Piece<'a>>,
    },
    Input {
        first: Option<Piece<'a>>,
    },
    Takes {
        count: u32,
    },
    Fails(Fail),
    Watch(WatcherName),
    Call {
        words: &'a str,
    },
    Ends(Status),
    Prints {
        first: Option<Piece<'a>>,
    },
    Leaves {
        name: &'a str,
        first: Option<Piece<'a>>,
    },
    Lacks {
        name: &'a str,
    },
    Piece(Piece<'a>),
}

/// What a line says.
pub fn line_of(text: &str) -> Result<Line<'_>, Fault> {
    let text = text.trim_start();
    if text.is_empty() || text.starts_with('#') {
        return Ok(Line::Nothing);
    }
    let (word, rest) = word_of(text);
    match word {
        "scene" => Ok(Line::Scene),
        "row" => Ok(Line::Row { title: rest }),
        "room" => Ok(Line::Room {
            count: number(rest)?,
        }),
        "sink" => Ok(Line::Sink {
            count: number(rest)?,
        }),
        "takes" => Ok(Line::Takes {
            count: number(rest)?,
        }),
        "fails" => Ok(Line::Fails(fail_of(rest)?)),
        "watch" => Ok(Line::Watch(watcher_of(rest)?)),
        "call" => Ok(Line::Call { words: rest }),
        "ends" => Ok(Line::Ends(status_of(rest)?)),
        "lacks" => Ok(Line::Lacks { name: rest.trim() }),
        _ => line_with_bytes(word, rest),
    }
}

// A line that begins bytes, or one that goes on with them.
fn line_with_bytes<'a>(word: &'a str, rest: &'a str) -> Result<Line<'a>, Fault> {
    match word {
        "bytes" => {
            let (name, rest) = word_of(rest);
            Ok(Line::Bytes {
                name,
                first: first_piece(rest)?,
            })
        }
        "file" => {
            let (name, rest) = word_of(rest);
            Ok(Line::File {
                name,
                first: first_piece(rest)?,
            })
        }
        "leaves" => {
            let (name, rest) = word_of(rest);
            Ok(Line::Leaves {
                name,
                first: first_piece(rest)?,
            })
        }
        "input" => Ok(Line::Input {
            first: first_piece(rest)?,
        }),
        "prints" => Ok(Line::Prints {
            first: first_piece(rest)?,
        }),
        _ => Ok(Line::Piece(piece_of(word, rest)?)),
    }
}

// The first word of a text, and what stands behind the blank after it.
fn word_of(text: &str) -> (&str, &str) {
    match text.split_once(' ') {
        Some(parts) => parts,
        None => (text, ""),
    }
}

fn number(word: &str) -> Result<u32, Fault> {
    word.trim().parse::<u32>().map_err(|_| Fault::Number)
}

// The piece that stands in the line that begins the bytes, if one does.
fn first_piece(text: &str) -> Result<Option<Piece<'_>>, Fault> {
    if text.is_empty() {
        return Ok(None);
    }
    let (word, rest) = word_of(text);
    Ok(Some(piece_of(word, rest)?))
}

fn piece_of<'a>(word: &'a str, rest: &'a str) -> Result<Piece<'a>, Fault> {
    match word {
        "|" => Ok(Piece::Line(rest)),
        ">" => Ok(Piece::Text(rest)),
        "hex" => Ok(Piece::Hex(rest)),
        "all" => Ok(Piece::Copies {
            count: 1,
            name: rest.trim(),
        }),
        "copies" => {
            let (count, name) = word_of(rest);
            Ok(Piece::Copies {
                count: number(count)?,
                name: name.trim(),
            })
        }
        "front" => {
            let (count, name) = word_of(rest);
            Ok(Piece::Front {
                count: number(count)?,
                name: name.trim(),
            })
        }
        "digest" => Ok(Piece::Digest { name: rest.trim() }),
        "closing" => Ok(Piece::Closing),
        _ => Err(Fault::Line),
    }
}

// Which call fails, by its number among those of its kind, and how many bytes it keeps.
fn fail_of(text: &str) -> Result<Fail, Fault> {
    let (kind, rest) = word_of(text);
    let (nth, kept) = word_of(rest);
    let nth = number(nth)?;
    let kept = number(kept)?;
    let call = match kind {
        "put" => return Ok(Fail::Sink(SinkFail { nth, kept })),
        "take" => return Ok(Fail::Source(nth)),
        "fetch" => CabinetCall::Fetch,
        "begin" => CabinetCall::Begin,
        "append" => CabinetCall::Append,
        "close" => CabinetCall::Close,
        _ => return Err(Fault::Line),
    };
    Ok(Fail::Cabinet(CabinetFail { call, nth, kept }))
}

fn watcher_of(name: &str) -> Result<WatcherName, Fault> {
    match name.trim() {
        "KindCount" => Ok(WatcherName::KindCount),
        "FaultStop" => Ok(WatcherName::FaultStop),
        "LetterLog" => Ok(WatcherName::LetterLog),
        _ => Err(Fault::Watcher),
    }
}

fn status_of(name: &str) -> Result<Status, Fault> {
    match name.trim() {
        "Done" => Ok(Status::Done),
        "Usage" => Ok(Status::Usage),
        "Absent" => Ok(Status::Absent),
        "ReadFault" => Ok(Status::ReadFault),
        "WriteFault" => Ok(Status::WriteFault),
        "TooLong" => Ok(Status::TooLong),
        "ProgramRefused" => Ok(Status::ProgramRefused),
        "ScheduleRefused" => Ok(Status::ScheduleRefused),
        "TraceDamaged" => Ok(Status::TraceDamaged),
        "OtherProgram" => Ok(Status::OtherProgram),
        "Stuck" => Ok(Status::Stuck),
        "WantOfMemory" => Ok(Status::WantOfMemory),
        "NotItsTrace" => Ok(Status::NotItsTrace),
        "InputFull" => Ok(Status::InputFull),
        _ => Err(Fault::Status),
    }
}
