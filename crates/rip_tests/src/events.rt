//! A listener of a caller hears what each line of a log comes to.

ghost use Rattle.std.specs.Prelude.{⊤};

use crate::examples::{BAD, TRIANGLE};
use crate::fixtures::plan_of;
use rip_log::{FromRead, LogReader};
use rip_plan::Plan;
use rip_table::{Event, ListTable, Listener, collect_all};
use std::alloc::AllocError;

/// A line and what it comes to: 0 joined, 1 refused, 2 an unknown sender's, 3 a request, 4 bad.
type Note = (u32, u32);

/// A listener that writes down what it hears.
#[derive(Drop)]
struct Notes {
    notes: Vec<Note>,
}

impl Listener for Notes {
    ghost holds = { λ _ _. ⊤ };

    ghost suits = { λ _ _. ⊤ };

    ghost may_allocate = { λ _. ⊤ };

    fn hear(&mut self, _plan: &Plan, line: u32, event: &Event<'_>) -> Result<(), AllocError> {
        let kind = match event {
            Event::Joined(_) => 0,
            Event::Refused(_) => 1,
            Event::Stranger(_) => 2,
            Event::Request(_) => 3,
            Event::Bad(_) => 4u32,
        };
        self.notes.push((line, kind))?;
        Ok(())
    }
}

const NOTES: [Note; 12] = [
    (1, 0),
    (2, 0),
    (3, 0),
    (4, 0),
    (5, 0),
    (6, 0),
    (7, 1),
    (8, 1),
    (9, 2),
    (10, 3),
    (11, 4),
    (12, 4),
];

#[test]
fn lines_of_each_kind(rt: HostRuntime) {
    let plan = plan_of(&rt, rt.alloc(), TRIANGLE);
    let mut heard = Notes {
        notes: Vec::new(rt.alloc()),
    };
    let (Ok(mut table), Ok(mut reader)) = (
        ListTable::new(rt.alloc(), &plan),
        LogReader::new(rt.alloc(), FromRead::new(BAD.as_bytes())),
    ) else {
        panic!(rt; "no memory");
    };
    assert!(rt; collect_all(&plan, &mut reader, &mut table, &mut heard).is_ok());
    assert!(rt; heard.notes.as_slice() == &NOTES[..]);
}
