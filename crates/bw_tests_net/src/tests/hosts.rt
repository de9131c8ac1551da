//! The whole command: its first line, its lines, and what it reports if something can't be used.
use crate::tests::compare::same;
use crate::tests::memory_network::{FOLDER, MemoryNetwork, PORT};
use crate::tests::play::{QUICK, QUICK_OTHER, bounds};
use crate::tests::scripted_reactor::{Plan, Visit};
use bw_console::Exit;
use bw_layout::Limit;
use bw_operators::AllowList;
use bw_serve::{Hosting, open_new, report_refusal, serve_at_once};
use bw_stream::MemorySink;
use std::alloc::Global;
use std::net::{Ipv4Addr, SocketAddr};
use std::process::Abort;
use std::test::Fail;

const TWO_VISITS: &[Visit] = &[QUICK, QUICK_OTHER];

/// The wanted outcome of a call.
#[derive(Clone, Copy)]
struct Wanted {
    exit: Exit,
    out: &'static [u8],
    faults: &'static [u8],
    failures: u64,
}

/// Serves two at once over the memory's network, with a log, and compares the whole outcome.
fn comes_to(rt: &impl Abort, alloc: Global, port: u16, folder: &str, wanted: &Wanted) {
    let mut memory_network = MemoryNetwork::new(alloc, Plan::over(TWO_VISITS, 10, 100));
    let allow = AllowList::everyone();
    let hosting = Hosting {
        address: SocketAddr::from((Ipv4Addr::LOCALHOST, port)),
        folder,
        bounds: bounds(2, 2, 60_000),
        allow: &allow,
        log: true,
    };
    let mut out = MemorySink::new(Vec::new(alloc));
    let mut faults = MemorySink::new(Vec::new(alloc));
    let opened = open_new(alloc, &mut memory_network, folder, Limit::default());
    let exit = match opened {
        Ok(opened) => serve_at_once(
            alloc,
            &mut memory_network,
            opened,
            &hosting,
            &mut out,
            &mut faults,
        ),
        Err(refusal) => report_refusal(alloc, folder, &refusal, &mut faults),
    };
    same(rt, "the exit", &exit, &wanted.exit);
    same(
        rt,
        "the failures",
        &memory_network.failures(),
        &wanted.failures,
    );
    assert!(rt; out.into_bytes().as_slice() == wanted.out, "other lines");
    assert!(rt;
        faults.into_bytes().as_slice() == wanted.faults,
        "other faults"
    );
}

/// Both are over in their third round, in which their replies are sent.
const BOTH: Wanted = Wanted {
    exit: Exit::Done,
    out: b"listening 127.0.0.1:4000\nexchange 0 EndOfInput\nexchange 1 Bye\n",
    faults: b"peer 127.0.0.1:4100 names a1 end EndOfInput messages 3 bytes 46\n\
        peer 127.0.0.1:4101 names b2 end Bye messages 3 bytes 46\n",
    failures: 0,
};

#[test]
fn two_are_served_after_the_first_line(rt: HostRuntime) -> Result<(), Fail> {
    comes_to(&rt, rt.alloc(), PORT, FOLDER, &BOTH);
    Ok(())
}

const NO_FOLDER: Wanted = Wanted {
    exit: Exit::Device,
    out: b"",
    faults: b"elsewhere can't be opened: entity not found\n",
    failures: 1,
};

#[test]
fn a_folder_that_is_not_there_is_reported(rt: HostRuntime) -> Result<(), Fail> {
    comes_to(&rt, rt.alloc(), PORT, "elsewhere", &NO_FOLDER);
    Ok(())
}

const NO_ADDRESS: Wanted = Wanted {
    exit: Exit::Device,
    out: b"",
    faults: b"127.0.0.1:4001 can't be opened: address in use\n",
    failures: 1,
};

#[test]
fn an_address_that_is_in_use_is_reported(rt: HostRuntime) -> Result<(), Fail> {
    comes_to(&rt, rt.alloc(), 4001, FOLDER, &NO_ADDRESS);
    Ok(())
}
