// Standard input and output with a record of what went through them. `Passed` says of the record how many bytes the reads gave and how many the writes were handed,
// `Finished` that no read gives any more. Its fields are private, so no other crate makes a record but by these functions. After a read that gave nothing nothing
// is read any more, after a failed write nothing is read or written; at most 2^64 - 1 reads are made.
#![tactic(auto)]

ghost use Rattle.std.specs.Prelude.{◌≤◌, length};
ghost use Rattle.streams.specs.Passing.{Started, Read, Wrote, Flushed};

use std::io::{Print, Read, Stderr, Stdin, Stdout};

// What the reads found: bytes so far, the end, or a read that failed, which ends the input too.
#[derive(Clone, Copy, PartialEq, Eq, Debug)]
enum Source {
    Open,
    Ended,
    Broken,
}

// Standard input and output; how many bytes were read and written, modulo 2^64, how many reads were made, what they found, and whether a write failed.
#[derive(Drop)]
pub struct Streams {
    stdin: Stdin,
    stdout: Stdout,
    read: u64,
    written: u64,
    reads: u64,
    source: Source,
    failed: bool,
}

// After a read: how many bytes it gave. None are the end, as is a read that fails: of such a read no bytes are known.
#[derive(Drop)]
pub struct Reading {
    pub streams: Streams,
    pub count: usize,
}

// After a list of bytes to write may have been written: how many wait at its front.
#[derive(Drop)]
pub struct Waiting {
    pub streams: Streams,
    pub count: usize,
}

// Before anything is read or written.
pub fn start(stdin: Stdin, stdout: Stdout) -> Streams
    ensures { Started result }
{
    Streams {
        stdin,
        stdout,
        read: 0,
        written: 0,
        reads: 0,
        source: Source::Open,
        failed: false,
    }
}

// Reads a piece of any size to the front of a list.
pub fn read(streams: Streams, piece: &mut [u8]) -> Reading
    ensures { Read streams piece.new result }
{
    if streams.source != Source::Open
        || streams.failed
        || streams.reads == u64::MAX
        || piece.is_empty()
    {
        return Reading { streams, count: 0 };
    }
    let mut stdin = streams.stdin;
    let (count, source) = match stdin.read(piece) {
        Ok(0) => (0, Source::Ended),
        Ok(count) => (count, Source::Open),
        Err(_) => (0, Source::Broken),
    };
    let after = Streams {
        read: streams.read.wrapping_add(count as u64),
        reads: streams.reads + 1,
        source,
        ..streams
    };
    Reading {
        streams: after,
        count,
    }
}

// Writes all of some bytes.
pub fn write(streams: Streams, bytes: &[u8]) -> Streams
    ensures { Wrote streams bytes.now result }
{
    if streams.failed {
        return streams;
    }
    let done = streams.stdout.write_all(bytes).is_ok();
    Streams {
        written: streams.written.wrapping_add(bytes.len() as u64),
        failed: !done,
        ..streams
    }
}

// Writes the bytes that wait at the front of a list if there is less room behind them than needed.
pub fn make_room(streams: Streams, list: &[u8], count: usize, needed: usize) -> Waiting
    requires within { count ≤ length list.now }
    requires fits { needed ≤ length list.now }
    ensures { Flushed streams list.now count needed result }
{
    if needed <= list.len() - count {
        return Waiting { streams, count };
    }
    let after = write(streams, &list[..count]);
    Waiting {
        streams: after,
        count: 0,
    }
}

// Says on standard error what failed, if anything did.
pub fn report(streams: Streams, stderr: Stderr) {
    if streams.failed {
        let _ = stderr.write_all(b"the output failed\n");
    }
    if streams.source == Source::Broken {
        let _ = stderr.write_all(b"the input failed\n");
    }
}
