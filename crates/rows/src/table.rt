//! Reads a table: the rows that its lines say.

use crate::fault::Fault;
use crate::line::{Line, Piece, line_of};
use crate::row::{Call, Left, Row};
use crate::setup::Setup;
use sha2::{Digest, Sha256};
use std::alloc::Global;
use std::mem;

/// A table that can't be read: in which line, and why.
#[derive(Clone, Copy, Debug, PartialEq, Eq)]
pub struct Unreadable {
    pub line: usize,
    pub fault: Fault,
}

// Bytes under a name.
#[derive(Drop)]
struct Named {
    name: String,
    bytes: Vec<u8>,
}

// Where the gathered bytes go.
#[derive(Drop)]
enum Place {
    Nowhere,
    Named(String),
    File(String),
    Input,
    Printed,
    Left(String),
}

// What was read so far.
#[derive(Drop)]
struct Reader {
    alloc: Global,
    named: Vec<Named>,
    scene: Setup,
    rows: Vec<Row>,
    // Whether a line belongs to the last row, and not to the scene.
    is_in_row: bool,
    place: Place,
    gathered: Vec<u8>,
}

/// The rows of a table's text.
pub fn read_table(alloc: Global, text: &str) -> Result<Vec<Row>, Unreadable> {
    let mut reader = Reader::new(alloc);
    let mut line = 0usize;
    for said in text.lines() {
        line = line.saturating_add(1);
        if let Err(fault) = reader.read(said, line) {
            return Err(Unreadable { line, fault });
        }
    }
    match reader.put_away() {
        Ok(()) => Ok(reader.rows),
        Err(fault) => Err(Unreadable { line, fault }),
    }
}

impl Reader {
    fn new(alloc: Global) -> Reader {
        Reader {
            alloc,
            named: Vec::new(alloc),
            scene: Setup::new(alloc),
            rows: Vec::new(alloc),
            is_in_row: false,
            place: Place::Nowhere,
            gathered: Vec::new(alloc),
        }
    }

    // Takes in a line.
    fn read(&mut self, text: &str, number: usize) -> Result<(), Fault> {
        let line = line_of(text)?;
        match line {
            Line::Nothing => return Ok(()),
            Line::Piece(piece) => return self.gather(piece),
            _ => self.put_away()?,
        }
        match line {
            Line::Scene => {
                self.scene = Setup::new(self.alloc);
                self.is_in_row = false;
                Ok(())
            }
            Line::Row { title } => self.begin_row(title, number),
            Line::Call { words } => self.begin_call(words),
            _ => self.read_of_setup(line),
        }
    }

    // Takes in a line on what a row begins with.
    fn read_of_setup(&mut self, line: Line<'_>) -> Result<(), Fault> {
        match line {
            Line::Room { count } => {
                self.setup()?.room = count;
                Ok(())
            }
            Line::Sink { count } => {
                self.setup()?.sink_room = count;
                Ok(())
            }
            Line::Takes { count } => {
                self.setup()?.piece = count;
                Ok(())
            }
            Line::Fails(fail) => self.setup()?.fail(fail),
            Line::Watch(watcher) => self.setup()?.watch(watcher),
            _ => self.read_of_call(line),
        }
    }

    // Takes in a line on what is wanted of a call.
    fn read_of_call(&mut self, line: Line<'_>) -> Result<(), Fault> {
        match line {
            Line::Ends(status) => {
                self.call()?.status = Some(status);
                Ok(())
            }
            Line::Lacks { name } => {
                let name = String::from_str(self.alloc, name)?;
                self.call()?.left.push(Left { name, bytes: None })?;
                Ok(())
            }
            _ => self.read_of_bytes(line),
        }
    }

    // Takes in a line that begins bytes.
    fn read_of_bytes(&mut self, line: Line<'_>) -> Result<(), Fault> {
        let (place, first) = match line {
            Line::Bytes { name, first } => (Place::Named(self.text(name)?), first),
            Line::File { name, first } => (Place::File(self.text(name)?), first),
            Line::Input { first } => (Place::Input, first),
            Line::Prints { first } => (Place::Printed, first),
            Line::Leaves { name, first } => (Place::Left(self.text(name)?), first),
            _ => return Err(Fault::Line),
        };
        self.place = place;
        match first {
            Some(piece) => self.gather(piece),
            None => Ok(()),
        }
    }

    fn text(&self, text: &str) -> Result<String, Fault> {
        Ok(String::from_str(self.alloc, text)?)
    }

    // What the last row begins with, before its first call, or the scene where no row has begun.
    fn setup(&mut self) -> Result<&mut Setup, Fault> {
        if !self.is_in_row {
            return Ok(&mut self.scene);
        }
        let Some(row) = self.rows.last_mut() else {
            return Err(Fault::Place);
        };
        if !row.calls.is_empty() {
            return Err(Fault::Place);
        }
        Ok(&mut row.setup)
    }

    // The last call of the last row.
    fn call(&mut self) -> Result<&mut Call, Fault> {
        if !self.is_in_row {
            return Err(Fault::Place);
        }
        let Some(row) = self.rows.last_mut() else {
            return Err(Fault::Place);
        };
        row.calls.last_mut().ok_or(Fault::Place)
    }

    fn begin_row(&mut self, title: &str, line: usize) -> Result<(), Fault> {
        let row = Row {
            line,
            title: self.text(title)?,
            setup: self.scene.copy(self.alloc)?,
            calls: Vec::new(self.alloc),
        };
        self.rows.push(row)?;
        self.is_in_row = true;
        Ok(())
    }

    fn begin_call(&mut self, words: &str) -> Result<(), Fault> {
        let call = Call {
            words: self.text(words)?,
            status: None,
            printed: None,
            left: Vec::new(self.alloc),
        };
        match self.rows.last_mut() {
            Some(row) if self.is_in_row => {
                row.calls.push(call)?;
                Ok(())
            }
            _ => Err(Fault::Place),
        }
    }

    // Puts the gathered bytes where they belong.
    fn put_away(&mut self) -> Result<(), Fault> {
        let place = mem::replace(&mut self.place, Place::Nowhere);
        let bytes = mem::replace(&mut self.gathered, Vec::new(self.alloc));
        match place {
            Place::Nowhere => {}
            Place::Named(name) => self.named.push(Named { name, bytes })?,
            Place::File(name) => self.setup()?.hold(name, bytes)?,
            Place::Input => self.setup()?.input = bytes,
            Place::Printed => self.call()?.printed = Some(bytes),
            Place::Left(name) => {
                let bytes = Some(bytes);
                self.call()?.left.push(Left { name, bytes })?;
            }
        }
        Ok(())
    }

    // Adds a piece to the gathered bytes.
    fn gather(&mut self, piece: Piece<'_>) -> Result<(), Fault> {
        if let Place::Nowhere = self.place {
            return Err(Fault::Place);
        }
        let bytes = &mut self.gathered;
        match piece {
            Piece::Line(text) => {
                bytes.extend_from_slice(text.as_bytes())?;
                bytes.push(b'\n')?;
            }
            Piece::Text(text) => bytes.extend_from_slice(text.as_bytes())?,
            Piece::Hex(digits) => add_hex(bytes, digits)?,
            Piece::Copies { count, name } => add_copies(bytes, count, find(&self.named, name)?)?,
            Piece::Front { count, name } => {
                let source = find(&self.named, name)?;
                let front = source.get(..count as usize).ok_or(Fault::Number)?;
                bytes.extend_from_slice(front)?;
            }
            Piece::Digest { name } => {
                let digest = Sha256::digest(find(&self.named, name)?);
                bytes.extend_from_slice(&digest)?;
            }
            Piece::Closing => {
                let digest = Sha256::digest(bytes.as_slice());
                bytes.extend_from_slice(&digest)?;
            }
        }
        Ok(())
    }
}

// The bytes of that name.
fn find<'a>(named: &'a [Named], name: &str) -> Result<&'a [u8], Fault> {
    for entry in named {
        if entry.name.as_str() == name {
            return Ok(&entry.bytes);
        }
    }
    Err(Fault::Name)
}

fn add_copies(bytes: &mut Vec<u8>, count: u32, source: &[u8]) -> Result<(), Fault> {
    for _ in 0..count {
        bytes.extend_from_slice(source)?;
    }
    Ok(())
}

// Adds the bytes that pairs of hexadecimal digits spell. Blanks between digits say nothing.
fn add_hex(bytes: &mut Vec<u8>, digits: &str) -> Result<(), Fault> {
    let mut high = None;
    for byte in digits.bytes() {
        if byte == b' ' {
            continue;
        }
        let digit = digit_of(byte).ok_or(Fault::Digits)?;
        high = match high {
            None => Some(digit),
            Some(first) => {
                bytes.push(digit.wrapping_add(first.wrapping_mul(16)))?;
                None
            }
        };
    }
    match high {
        None => Ok(()),
        Some(_) => Err(Fault::Digits),
    }
}

fn digit_of(byte: u8) -> Option<u8> {
    match byte {
        b'0'..=b'9' => Some(byte - b'0'),
        b'a'..=b'f' => Some(byte - b'a' + 10),
        _ => None,
    }
}
