// The workers of a whole run are at the gate at the same time, and its sheet is that of one.
use crate::roll::Roll;
use gl_app::{Status, run};
use gl_desk::{Desk, MemDesk, Name};
use gl_task::Steward;
use std::alloc::Global;
use std::str::from_utf8;
use std::test::Fail;

/// The task of a race from the origin one degree east and back.
const TASK: &str = "date = \"2024-07-01\"\nkind = \"racing\"\ncloses = 72000\n\
    [start]\nat = \"0000000N00000000E\"\ntowards = \"0000000N00100000E\"\nhalf = 5000\n\
    open = 36000\nclose = 43200\n\
    [[zone]]\nat = \"0000000N00100000E\"\n[[zone.part]]\nradius = 1000\n\
    [finish]\nat = \"0000000N00000000E\"\nring = 1000\n\
    [[entrant]]\nnumber = \"CC\"\nname = \"Cy\"\nhandicap = 1000\nfile = \"CC.IGC\"\n";

/// A flight over the start that lands out in the zone, so that there is one claim.
const FLIGHT: &str = "AXXXABC\nHFDTE010724\nB1000000000000N00001000WA0100001000\n\
    B1000100000000N00001000EA0100001000\nB1200000000000N00100000EA0100001000\n";

/// The folder of the day.
fn folder(alloc: Global) -> Result<MemDesk, Fail> {
    let mut desk = MemDesk::new(alloc, Vec::new(alloc), Vec::new(alloc))?;
    for (name, text) in [("DAY.TOML", TASK), ("CC.IGC", FLIGHT)] {
        let name = Name::from_text(alloc, name)?;
        desk.append(alloc, &name, text.as_bytes())?;
    }
    Ok(desk)
}

/// The words of a `score` by so many workers.
fn words(alloc: Global, count: u32) -> Result<Vec<Name>, Fail> {
    let line = format!(in alloc; "score DAY.TOML P.TXT {count}")?;
    let mut words = Vec::new(alloc);
    for word in line.as_str().split(' ') {
        words.push(Name::from_text(alloc, word)?)?;
    }
    Ok(words)
}

/// `score` hands its one claim to all workers, and comes to one sheet. One worker passes no gate.
#[test]
fn all_workers_of_a_day_meet_at_the_gate(rt: HostRuntime) -> Result<(), Fail> {
    let alloc = rt.alloc();
    for count in 1..=16 {
        let gate = Roll::new(&rt, alloc, count)?;
        let mut desk = folder(alloc)?;
        let mut stewards: Vec<Box<dyn Steward>> = Vec::new(alloc);
        let words = words(alloc, count)?;
        let status = run(&rt, alloc, &words, &mut desk, &gate, &mut stewards);
        assert_eq!(rt; status, Status::Done, "by {count} workers");
        assert_eq!(rt; gate.all_met(), count > 1, "{count} workers");
        let said = from_utf8(desk.printed())?;
        assert!(rt; said.contains("1,CC,Cy,OUTLANDED,111194,,0,"), "{said}");
    }
    Ok(())
}
