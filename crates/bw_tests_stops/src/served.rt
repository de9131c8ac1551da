//! The worked delivery is answered as it is worked out, and the file has the bytes of its example, also
//! by a server with a journal.
use crate::promised::{serve_delivery, serve_delivery_in_folder};
use bw_layout::Limit;
use bw_model::Name;
use std::process::Abort;
use std::test::Fail;

/// Fails the test unless a file has the length, the first and the last bytes of the example.
fn is_whole(rt: &impl Abort, file: &[u8]) {
    assert!(rt; file.len() == 694);
    assert!(rt; file.starts_with(b"RIFF\xae\x02\0\0WAVE"));
    assert!(rt; file.ends_with(b"data\x04\0\0\0\x01\0\x02\0"));
}

#[test]
fn a_delivery_is_answered_and_its_file_is_whole(rt: HostRuntime) -> Result<(), Fail> {
    let limit = Limit::new(4_294_967_294).ok_or("a limit")?;
    let Ok(server) = serve_delivery(rt.alloc(), limit) else {
        return Err("a message got another reply")?;
    };
    let name = Name::new(b"a1").ok_or("a name")?;
    assert!(rt; server.done(&name) == Some(3) && server.is_closed(&name));
    is_whole(&rt, server.store().content(&name).ok_or("a file")?);
    Ok(())
}

#[test]
fn so_it_is_with_a_journal(rt: HostRuntime) -> Result<(), Fail> {
    let limit = Limit::new(4_294_967_294).ok_or("a limit")?;
    let Ok(server) = serve_delivery_in_folder(rt.alloc(), limit) else {
        return Err("a message got another reply")?;
    };
    let (store, _journal) = server.into_server().into_stores();
    let takes = store.into_disk().into_inner();
    is_whole(&rt, takes.content("takes/a1.wav").ok_or("a file")?);
    Ok(())
}
