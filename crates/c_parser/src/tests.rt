use crate::ParseFault;
use std::test::Fail;

/// What is displayed for each refusal.
#[test]
fn displays_refusals(rt: HostRuntime) -> Result<(), Fail> {
    let rows: [(ParseFault, &str); 3] = [
        (ParseFault::Syntax { line: 1 }, "line 1: not the grammar"),
        (
            ParseFault::Deep { line: 4294967295 },
            "line 4294967295: nested too deeply",
        ),
        (ParseFault::Memory, "out of memory"),
    ];
    for (fault, text) in rows {
        assert_eq!(rt; format!(in rt.alloc(); "{fault}")?.as_str(), text);
    }
    Ok(())
}
