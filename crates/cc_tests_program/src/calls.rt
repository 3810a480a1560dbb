//! Calls over memory, with answers worked out by hand.
ghost use Rattle.std.specs.Prelude.{◌≡◌, ◌<◌};

use cc_base::steps::Steps;
use cc_io::{MemSink, MemSource};
use cc_program::run::capc;
use cc_program::status::Status;
use std::alloc::{AllocError, Global};
use std::marker::Brand;
use std::sync::ledger::{Blank, Ledger};
use std::test::Fail;

/// How many bytes a call moves, and which call fails, if any.
#[derive(Clone, Copy)]
pub(crate) struct Plan {
    pub(crate) most: usize,
    pub(crate) fails: u32,
}

/// Nothing fails, and a call moves as much as it can.
pub(crate) const EASY: Plan = Plan {
    most: 4096,
    fails: 0,
};

/// How a run ended, what it wrote, and how many steps it counted.
#[derive(Drop)]
pub(crate) struct Ended {
    pub(crate) status: Status,
    pub(crate) written: Vec<u8>,
    pub(crate) steps: u64,
}

pub(crate) fn run<L: Ledger>(
    alloc: Global,
    texts: &[&[u8]],
    job: &[u8],
    reads: Plan,
    writes: Plan,
    blank: Blank,
) -> Result<Ended, AllocError>
    requires name { blank.name ≡ L.name }
    requires parts { blank.parts ≡ L.parts }
    requires some { 0 < L.parts }
    requires reads { 0 < reads.most }
    requires writes { 0 < writes.most }
{
    let mut steps = Steps::<L>::new(blank);
    let mut words = Vec::new(alloc);
    for text in texts {
        words.push(String::from_utf8_lossy(alloc, text)?)?;
    }
    let mut source = MemSource::new(
        Vec::from_slice(alloc, job)?,
        reads.most,
        Vec::from_slice(alloc, &[reads.fails])?,
    );
    let mut sink = MemSink::new(alloc, writes.most, Vec::from_slice(alloc, &[writes.fails])?);
    let status = capc(alloc, words.as_slice(), &mut source, &mut sink, &mut steps);
    let written = Vec::from_slice(alloc, sink.bytes())?;
    Ok(Ended {
        status,
        written,
        steps: steps.count(),
    })
}

/// How many calls move this many bytes.
pub(crate) fn calls(bytes: usize, most: usize) -> usize
    requires { 0 < most }
{
    bytes.div_ceil(most)
}

/// Modules for lines on the console, for a count, and one that imports both, before the rest of a job.
const MODULES: &[u8] = b"capc 1
device out console
device hits counter
put logger 2
def line: ((x: Int) -> Unit)^{out} = fun (x: Int) => out.print(x)
def title: ((s: Str) -> Unit)^{out} = fun (s: Str) => out.say(s)
put counter 1
def next: ((u: Unit) -> Int)^{hits} = fun (u: Unit) => hits.tick()
put app 7
import logger.line
import logger.title
import counter.next
def main = fun (u: Unit) =>
  val a = title(\"start\");
  val each = fun (i: Int) => val n = next(unit); line(n * 10 + i);
  repeat(2, each)
";

/// What is written for the puts of these modules.
const PUTS: &[u8] = b"put logger\nput counter\nput app\n";

/// Modules are judged where they are new, or have another text, or import what has another signature, and no others, by
/// each command that asks something.
#[test]
fn modules_are_judged_where_they_are_stale(rt: HostRuntime) -> Result<(), Fail> {
    let alloc = rt.alloc();
    let cases: [(&[u8], &[u8], u64); 10] = [
        (
            b"check\n",
            b"check\n  app ok\n  counter ok\n  logger ok\n",
            3,
        ),
        // A check of what was checked.
        (
            b"check\nsig counter\n",
            b"check\n  app ok\n  counter ok\n  logger ok\nsig counter\n  next: ((_0: Unit) -> Int)^{hits}\n",
            3,
        ),
        // The same text again.
        (
            b"check\ndrop counter\nput counter 1\ndef next: ((u: Unit) -> Int)^{hits} = fun (u: Unit) => hits.tick()\ncheck\n",
            b"check\n  app ok\n  counter ok\n  logger ok\ndrop counter\nput counter\ncheck\n  app ok\n  counter ok\n  logger ok\n",
            3,
        ),
        // Another text with the same signature.
        (
            b"check\nput counter 1\ndef next: ((u: Unit) -> Int)^{hits} = fun (u: Unit) => val a = hits.tick(); hits.tick()\ncheck\n",
            b"check\n  app ok\n  counter ok\n  logger ok\nput counter\ncheck\n  app ok\n  counter ok\n  logger ok\n",
            4,
        ),
        // A text that is no module: the one that imports it is judged too.
        (
            b"check\nput counter 1\ndef next = 1 2\ncheck\n",
            b"check\n  app ok\n  counter ok\n  logger ok\nput counter\ncheck\n  app E07 3:8\n  counter E03 1:14\n  logger ok\n",
            5,
        ),
        // A request for signatures checks.
        (
            b"sig app\n",
            b"sig app\n  main: ((_0: Unit) -> Unit)^{out, hits}\n",
            3,
        ),
        // So does a request for a certificate.
        (
            b"derive counter.none\n",
            b"derive counter.none refused E33\n",
            3,
        ),
        // And a run.
        (
            b"run app.main 1000\n",
            b"run app.main\n  authority {out, hits}\n  out say start\n  hits tick 1\n  out print 10\n  hits tick 2\n  out print 21\n  done unit after 41 steps\n",
            3,
        ),
        (
            b"run app.main 5\nrun logger.line 5\n",
            b"run app.main\n  authority {out, hits}\n  out say start\n  out of fuel after 5 steps\nrun logger.line refused E35\n",
            3,
        ),
        // And tasks.
        (
            b"tasks 8 0,1 counter.next counter.next\ntasks 8 0,1 counter.next app.none\n",
            b"tasks\n  0 authority {hits}\n  1 authority {hits}\n  0 hits tick 1\n  1 hits tick 2\n  0 done 1 after 2 steps\n  1 done 2 after 2 steps\ntasks refused E33 app.none\n",
            3,
        ),
    ];
    for (rest, answer, steps) in cases {
        let mut job = Vec::from_slice(alloc, MODULES)?;
        job.extend_from_slice(rest)?;
        let mut wanted = Vec::from_slice(alloc, PUTS)?;
        wanted.extend_from_slice(answer)?;
        let ended = run::<Brand>(alloc, &[], &job, EASY, EASY, Blank::new(1))?;
        assert_eq!(rt; ended.written.as_slice(), wanted.as_slice());
        assert_eq!(rt; ended.steps, steps);
    }
    Ok(())
}

/// The summary of a workload is written, each of its modules is judged once at each of its two checks, and no read of the
/// source, which would fail, is made.
#[test]
fn workloads_are_summarized(rt: HostRuntime) -> Result<(), Fail> {
    let alloc = rt.alloc();
    let cases: [(&[&[u8]], &[u8], u64); 3] = [
        (
            &[b"--workload", b"2"],
            b"workload 2\nlines 17\nbytes 183\nlast done unit after 12 steps\n",
            6,
        ),
        (
            &[b"--workload=2"],
            b"workload 2\nlines 17\nbytes 183\nlast done unit after 12 steps\n",
            6,
        ),
        (
            &[b"--workload", b"200"],
            b"workload 200\nlines 611\nbytes 5619\nlast done unit after 1002 steps\n",
            402,
        ),
    ];
    let fails = Plan {
        most: 4096,
        fails: 1,
    };
    for (words, summary, steps) in cases {
        let ended = run::<Brand>(alloc, words, b"no job", fails, EASY, Blank::new(1))?;
        assert_eq!(rt; ended.status, Status::Clean);
        assert_eq!(rt; ended.written.as_slice(), summary);
        assert_eq!(rt; ended.steps, steps);
    }
    Ok(())
}

/// Nothing is written and judged where there are words, and where the bytes are no job.
#[test]
fn what_is_refused_is_silent(rt: HostRuntime) -> Result<(), Fail> {
    let alloc = rt.alloc();
    let cases: [(&[&[u8]], &[u8], Status); 4] = [
        (&[b"--frob"], b"capc 1\nput m 0\ncheck\n", Status::BadWords),
        (&[], b"", Status::BadJob(1)),
        (&[], b"capc 1\ncheck\nput m 2\nx\n", Status::BadJob(5)),
        (
            &[],
            b"capc 1\ncheck\ndevice out console\n",
            Status::BadJob(3),
        ),
    ];
    for (words, job, status) in cases {
        let ended = run::<Brand>(alloc, words, job, EASY, EASY, Blank::new(1))?;
        assert_eq!(rt; ended.status, status);
        assert!(rt; ended.written.is_empty() && ended.steps == 0);
    }
    Ok(())
}
