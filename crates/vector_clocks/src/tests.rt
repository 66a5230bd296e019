//! Clocks of three processes, two of which send to the first.

ghost use Rattle.std.specs.Prelude.{◌<◌};

use crate::Clocks;
use nm_base::ProcNo;
use std::process::Abort;
use std::test::Fail;

/// One tick, of a process that made few events.
fn tick(rt: &impl Abort, clocks: &mut Clocks, p: ProcNo)
    requires { p.no < 32 }
{
    let own = clocks.stamp(p).parts[p.no as usize];
    assert!(rt; own < 4294967295);
    clocks.tick(p);
}

/// Processes 1 and 2 make four and one events and send; process 0 takes in both timestamps.
#[test]
fn counts_events(rt: HostRuntime) -> Result<(), Fail> {
    let mut clocks = Clocks::new(3);
    let [zero, one, two] = [ProcNo { no: 0 }, ProcNo { no: 1 }, ProcNo { no: 2 }];
    tick(&rt, &mut clocks, one);
    tick(&rt, &mut clocks, one);
    tick(&rt, &mut clocks, two);
    let first = *clocks.stamp(one);
    let second = *clocks.stamp(two);
    tick(&rt, &mut clocks, zero);
    clocks.merge(zero, &first);
    tick(&rt, &mut clocks, zero);
    clocks.merge(zero, &second);
    tick(&rt, &mut clocks, one);
    for (p, parts) in [
        (zero, [2, 2, 1, 0]),
        (one, [0, 3, 0, 0]),
        (two, [0, 0, 1, 0]),
    ] {
        for (q, part) in parts.iter().enumerate() {
            assert_eq!(rt; clocks.stamp(p).parts[q], *part);
        }
    }
    Ok(())
}
