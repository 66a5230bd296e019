//! Breakpoints.

ghost use Rattle.std.specs.Prelude.{◌≡◌, ◌<◌, None, IfSome, position, replicate, slice_get};
ghost use Rattle.debugger.specs.Breaks.{cleared_in, fits_after, fits_next, is_free, is_taken, set_in};

use nm_base::{Kind, ProcNo};
use report::Spot;
use std::marker::Model;

/// There are so many places for breakpoints.
pub const MAX_BREAKS: usize = 16;

/// A breakpoint of a process.
#[derive(Clone, Copy, Debug, PartialEq, Eq)]
pub struct Break {
    pub proc: ProcNo,
    pub at: Spot,
}

/// The places for breakpoints, seen as the list of them.
#[derive(Drop)]
pub(crate) struct Breakpoints {
    places: [Option<Break>; MAX_BREAKS],
}

impl Model for Breakpoints {
    ghost use Rattle.std.specs.Prelude.{List, Option};
    ghost use Rattle.debugger.specs.declared.breakpoints.Break.{Break};

    ghost Value = { List (Option Break) };

    ghost view = { λ b. b.places };
}

// Whether a breakpoint at this spot fits after an event of this kind, where the next event of its
// process is a Line of this line.
fn fits_next(at: Spot, next: Option<u32>, kind: Kind) -> bool
    ensures { result ≡ fits_next at next kind }
{
    match at {
        Spot::Receive => matches!(kind, Kind::Accepted { .. }),
        Spot::Line { line } => next == Some(line),
    }
}

// Whether the breakpoint of a place fits after an event of the process.
fn fits(place: Option<Break>, p: ProcNo, kind: Kind, next: Option<u32>) -> bool
    ensures { result ≡ fits_after p.no kind next place }
{
    match place {
        None => false,
        Some(b) => b.proc.no == p.no && fits_next(b.at, next, kind),
    }
}

// Whether a place is free.
fn is_free(place: Option<Break>) -> bool
    ensures { result ≡ is_free place }
{
    match place {
        None => true,
        Some(_) => false,
    }
}

// The lowest free place.
fn first_free(places: &[Option<Break>; MAX_BREAKS]) -> Option<usize>
    ensures place { result ≡ position is_free places.now }
    ensures within { IfSome result (λ k. k < MAX_BREAKS) }
{
    places.iter().position(|place| is_free(*place))
}

// The lowest place whose breakpoint fits.
fn first_fitting(
    places: &[Option<Break>; MAX_BREAKS],
    p: ProcNo,
    kind: Kind,
    next: Option<u32>,
) -> Option<usize>
    ensures place { result ≡ position (fits_after p.no kind next) places.now }
    ensures within { IfSome result (λ k. k < MAX_BREAKS) }
{
    places.iter().position(|place| fits(*place, p, kind, next))
}

// A place, as a number of 32 bits.
fn numbered(place: Option<usize>) -> Option<u32>
    requires { IfSome place (λ k. k < MAX_BREAKS) }
    ensures { result ≡ place }
{
    match place {
        None => None,
        Some(k) => Some(k as u32),
    }
}

impl Breakpoints {
    /// All places are free.
    pub(crate) fn new() -> Breakpoints
        ensures { result ≡ replicate MAX_BREAKS None }
    {
        Breakpoints {
            places: [None; MAX_BREAKS],
        }
    }

    /// Takes the lowest free place for a breakpoint, and says which. Without one nothing is done.
    pub(crate) fn set(&mut self, b: Break) -> Option<u32>
        ensures place { result ≡ position is_free self.old }
        ensures places { self.new ≡ set_in self.old b (position is_free self.old) }
    {
        let place = first_free(&self.places);
        if let Some(k) = place {
            self.places[k] = Some(b);
        }
        numbered(place)
    }

    /// Frees a place, and says whether it was taken.
    pub(crate) fn clear(&mut self, k: u32) -> bool
        ensures taken { result ≡ is_taken (slice_get self.old k) }
        ensures places { self.new ≡ cleared_in self.old k (slice_get self.old k) }
    {
        match self.places.get(k as usize).copied() {
            Some(Some(_)) => {
                self.places[k as usize] = None;
                true
            }
            _ => false,
        }
    }

    /// The lowest place whose breakpoint fits after an event of the process, where `next` is the line
    /// of the process's next event, if this is a Line.
    pub(crate) fn fitting(&self, p: ProcNo, kind: Kind, next: Option<u32>) -> Option<u32>
        ensures { result ≡ position (fits_after p.no kind next) self.now }
    {
        numbered(first_fitting(&self.places, p, kind, next))
    }
}
