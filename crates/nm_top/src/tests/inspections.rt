//! What a debugger reads of one process.

use super::one_process::{begun, code_of, stepped};
use c_process::{FrameSeen, LookFault, Seen};
use nm_base::Ctype;
use std::alloc::Global;
use std::process::Abort;
use std::test::Fail;

/// A value, or why there is none.
type Read = Result<Seen, LookFault>;

/// Its events: lines 14, 17, 18, 3, 6, 9, 10, 12 and 19, and the end.
const HIDES: &str = "int g = 7;
unsigned h[3];
void f(int a[], int n)
{
    int g;
    g = n + 1;
    {
        int n;
        n = 40;
        a[1] = g;
    }
    g = 0;
}
int main(void)
{
    int x[2];
    h[2] = 4294967295u;
    f(x, 4);
    return x[1];
}
";

/// Has no room for a frame of main.
const TOO_LARGE: &str = "int a[65536]; int main(void) { int x; return 0; }";

const fn int(bits: u32) -> Read {
    Ok(Seen {
        bits,
        of: Ctype::Int,
    })
}

const fn unsigned(bits: u32) -> Read {
    Ok(Seen {
        bits,
        of: Ctype::Unsigned,
    })
}

/// The values of a name after so many events, as in the innermost frame and among the globals alone.
fn read(
    alloc: Global,
    text: &str,
    turns: u32,
    name: &str,
    index: Option<u32>,
) -> Result<(Read, Read), Fail> {
    let code = code_of(alloc, text)?;
    let seat = begun(alloc, &code)?;
    let seat = stepped(alloc, seat, turns)?;
    let process = seat.process();
    Ok((
        process.value(name.as_bytes(), index),
        process.global(name.as_bytes(), index),
    ))
}

#[test]
fn names_stand_for_the_innermost_variable(rt: HostRuntime) -> Result<(), Fail> {
    let no_name = Err(LookFault::NoName);
    let needs_index = Err(LookFault::NeedsIndex);
    let no_index = Err(LookFault::NoIndex);
    let table = [
        (HIDES, 0, "x", Some(0), no_name, no_name),
        (HIDES, 0, "g", None, int(7), int(7)),
        (HIDES, 0, "g", Some(0), no_index, no_index),
        (HIDES, 0, "h", None, needs_index, needs_index),
        (HIDES, 1, "x", Some(0), int(0), no_name),
        (HIDES, 1, "x", Some(2), no_index, no_name),
        (HIDES, 1, "h", Some(2), unsigned(0), unsigned(0)),
        (
            HIDES,
            2,
            "h",
            Some(2),
            unsigned(4_294_967_295),
            unsigned(4_294_967_295),
        ),
        (HIDES, 3, "g", None, int(7), int(7)),
        (HIDES, 3, "n", None, int(4), no_name),
        (HIDES, 3, "a", Some(1), int(0), no_name),
        (HIDES, 3, "a", None, needs_index, no_name),
        (HIDES, 3, "a", Some(2), no_index, no_name),
        (HIDES, 3, "x", Some(0), no_name, no_name),
        (HIDES, 4, "g", None, int(0), int(7)),
        (HIDES, 5, "g", None, int(5), int(7)),
        (HIDES, 5, "n", None, int(0), no_name),
        (HIDES, 6, "n", None, int(40), no_name),
        (HIDES, 7, "n", None, int(4), no_name),
        (HIDES, 7, "a", Some(1), int(5), no_name),
        (HIDES, 8, "x", Some(1), int(5), no_name),
        (HIDES, 8, "n", None, no_name, no_name),
        (HIDES, 10, "x", Some(1), int(5), no_name),
        (HIDES, 10, "g", None, int(7), int(7)),
        (TOO_LARGE, 0, "a", Some(65_535), int(0), int(0)),
        (TOO_LARGE, 1, "a", Some(65_536), no_index, no_index),
        (TOO_LARGE, 1, "x", None, no_name, no_name),
    ];
    for (text, turns, name, index, value, global) in table {
        assert_eq!(&rt;
            read(rt.alloc(), text, turns, name, index)?,
            (value, global),
            "{name}"
        );
    }
    Ok(())
}

const fn frame(function: u32, line: u32) -> Option<FrameSeen> {
    Some(FrameSeen { function, line })
}

/// The next line, and the frames, the innermost first.
fn frames(
    alloc: Global,
    text: &str,
    turns: u32,
) -> Result<(Option<u32>, Option<FrameSeen>, Option<FrameSeen>), Fail> {
    let code = code_of(alloc, text)?;
    let seat = begun(alloc, &code)?;
    let seat = stepped(alloc, seat, turns)?;
    let process = seat.process();
    let count = process.frame_count();
    let inner = if count > 0 {
        Some(process.frame(0))
    } else {
        None
    };
    let outer = if count > 1 {
        Some(process.frame(1))
    } else {
        None
    };
    Ok((process.next_line(), inner, outer))
}

#[test]
fn frames_tell_their_lines(rt: HostRuntime) -> Result<(), Fail> {
    let table = [
        (HIDES, 0, Some(14), frame(1, 14), None),
        (HIDES, 2, Some(18), frame(1, 18), None),
        (HIDES, 3, Some(3), frame(0, 3), frame(1, 18)),
        (HIDES, 7, Some(12), frame(0, 12), frame(1, 18)),
        (HIDES, 8, Some(19), frame(1, 19), None),
        (HIDES, 9, None, frame(1, 19), None),
        (HIDES, 10, None, frame(1, 19), None),
        (TOO_LARGE, 0, None, None, None),
        (TOO_LARGE, 1, None, None, None),
    ];
    for (text, turns, next, inner, outer) in table {
        assert_eq!(&rt;
            frames(rt.alloc(), text, turns)?,
            (next, inner, outer),
            "{turns}"
        );
    }
    Ok(())
}
