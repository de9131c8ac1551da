//! Readers: no clause says how many bytes a slice gives, and in no run does a file grow.

use crate::tests::compare::same;
use bw_stream::*;
use std::io::Cursor;

#[test]
fn a_slice_is_read_forward_and_once(rt: HostRuntime) -> Result<(), IoFailed> {
    let mut source = MemorySource::new(b"abcdefg");
    let mut buf = [0; 3];
    same(&rt, "the first read", &source.read(&mut buf)?, &3);
    same(&rt, "the front", &buf, b"abc");
    same(&rt, "a skip", &source.skip(2)?, &2);
    same(&rt, "the second read", &source.read(&mut buf)?, &2);
    same(&rt, "what is left of the buffer", &buf, b"fgc");
    same(&rt, "the last byte", &source.skip(1)?, &0);
    same(&rt, "the end", &source.read(&mut buf)?, &0);
    Ok(())
}

#[test]
fn a_skip_seeks_as_far_as_the_length_and_then_reads(rt: HostRuntime) -> Result<(), IoFailed> {
    let mut source = SeekSource::new(Cursor::new(b"abcdefgh".as_slice()), Some(6));
    let mut buf = [0; 2];
    same(&rt, "the first read", &source.read(&mut buf)?, &2);
    same(&rt, "a seek", &source.skip(3)?, &3);
    same(&rt, "the second read", &source.read(&mut buf)?, &2);
    same(&rt, "what it read", &buf, b"fg");
    same(&rt, "a skip past the length", &source.skip(9)?, &1);
    same(&rt, "the end", &source.skip(9)?, &0);
    Ok(())
}
