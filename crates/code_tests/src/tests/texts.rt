//! That writing appends in the room that is there; and a prefix of no items.

use std::alloc::AllocError;
use std::test::Fail;
use text_model::Writing;
use uri_text::{cut, encode, encode_u, encode_ur};

/// Appends `&` in each way, and returns whether the text never had to grow.
#[tactic(auto, using(text_model::proofs::Written::length_laws))]
fn appends_in_each_way(out: &mut String) -> Result<bool, AllocError> {
    out.reserve(3)?;
    let room = out.capacity();
    encode_u(out, b"&");
    let mut in_room = out.capacity() == room;
    out.reserve(3)?;
    let room = out.capacity();
    encode_ur(out, b"&");
    in_room &= out.capacity() == room;
    for writing in [Writing::U, Writing::UR] {
        out.reserve(3)?;
        let room = out.capacity();
        encode(out, b"&", writing);
        in_room &= out.capacity() == room;
    }
    Ok(in_room)
}

#[test]
fn writing_appends_in_the_room_that_is_there(rt: HostRuntime) -> Result<(), Fail> {
    let mut out = String::from_str(rt.alloc(), "a=")?;
    let in_room = appends_in_each_way(&mut out)?;
    assert!(rt; in_room);
    assert_eq!(rt; out.as_str(), "a=%26&%26&");
    Ok(())
}

/// A template's prefix has at least one item.
#[test]
fn no_items_are_no_text(rt: HostRuntime) {
    assert!(rt; cut(b"value", 0, false).is_empty());
    assert!(rt; cut(b"value", 0, true).is_empty());
}
