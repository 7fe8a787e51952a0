//! The whole run of two nodes that only close their links, as texts of both editions.

use std::alloc::Global;
use sync_rounds::Best;
use transcripts::{Transcript, read_any, read_behind_network, transcript_text};

const WHOLE: &[u8] =
    b"transcript 1 2\n1 put 2 close\n2 put 1 close\n1 take 2 close\n2 take 1 close\n";

// The same as one merged run, of edition 2.
const MERGED: &[u8] = b"transcript 2 2\n\
1 1 put 2 close\n2 2 take 1 close\n3 2 put 1 close\n4 1 take 2 close\n";

// The first, behind a network text.
const BEHIND: &[u8] = b"p edge 2 1\ne 1 2\n\
transcript 1 2\n1 put 2 close\n2 put 1 close\n1 take 2 close\n2 take 1 close\n";

// Whether the text of edition 1 is read as what it is, and written again.
fn is_read_and_written(alloc: Global) -> bool {
    let Ok(Transcript::One(nodes, rows)) = read_any::<Best>(alloc, WHOLE) else {
        return false;
    };
    match transcript_text(alloc, nodes, rows.as_slice()) {
        Ok(text) => text.as_slice() == WHOLE,
        Err(_) => false,
    }
}

// Whether the text of edition 2 is read as what it is.
fn is_read_with_stamps(alloc: Global) -> bool {
    match read_any::<Best>(alloc, MERGED) {
        Ok(Transcript::Two(nodes, rows)) => nodes == 2 && rows.len() == 4,
        _ => false,
    }
}

fn is_read_behind_a_network(alloc: Global) -> bool {
    match read_behind_network::<Best>(alloc, BEHIND) {
        Ok((nodes, rows)) => nodes == 2 && rows.len() == 4,
        Err(_) => false,
    }
}

#[test]
fn both_editions_are_read_by_one_call(rt: HostRuntime) {
    assert!(rt; is_read_and_written(rt.alloc()));
    assert!(rt; is_read_with_stamps(rt.alloc()));
    assert!(rt; is_read_behind_a_network(rt.alloc()));
}
