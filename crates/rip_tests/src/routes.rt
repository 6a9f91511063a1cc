//! The routers' own tables from a source that fails.

use crate::devices::Pieces;
use crate::examples::TRIANGLE;
use crate::fixtures::plan_of;
use rip_log::{FromRead, Source, TextReader};
use rip_plan::Plan;
use rip_routes::{RoutesCause, RoutesError, collect_routes};
use std::alloc::Global;
use std::hash::{BuildHasherDefault, FoldHasher};
use std::process::Abort;

type Hasher = BuildHasherDefault<FoldHasher>;

const ROUTES: &str = "r1 10.1.0.0/16 here
r1 10.2.0.0/16 2 over a\r
r1 10.2.0.0/16 2 via 10.3.0.3, from 10.3.0.3, 0:12 ago

\t# a comment
r3 10.9.0.0/16 16 unreachable";

/// Expects that a text is not read if its source fails in the pull with this number.
fn expect_unread(rt: &impl Abort, alloc: Global, plan: &Plan, fails_at: usize, line: u32) {
    let source = FromRead::new(Pieces::failing(ROUTES.as_bytes(), fails_at));
    let Ok(mut reader) = TextReader::new(alloc, source) else {
        panic!(rt; "no memory");
    };
    let cause = RoutesCause::Read;
    match collect_routes(alloc, plan, &mut reader, Hasher::new(), Hasher::new()) {
        Ok(_) => panic!(rt; "tables"),
        Err(error) => assert!(rt; error == RoutesError { line, cause }),
    }
    assert!(rt; reader.into_source().failed());
}

/// Each pull fails in turn, in the line that it would have gone on with. The pull after all bytes finds the end.
#[test]
fn a_source_that_fails(rt: HostRuntime) {
    let plan = plan_of(&rt, rt.alloc(), TRIANGLE);
    let mut line = 1u32;
    for before in 0..ROUTES.len().wrapping_add(1) {
        expect_unread(&rt, rt.alloc(), &plan, before.wrapping_add(1), line);
        if ROUTES.as_bytes().get(before) == Some(&b'\n') {
            line = line.wrapping_add(1);
        }
    }
}
