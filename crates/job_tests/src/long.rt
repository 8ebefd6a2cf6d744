// Long lines and long jobs.
use job::run_job;
use std::alloc::Global;
use std::test::Fail;

/// Each stage, with the number of the line behind it.
const STAGES: [(&str, usize); 3] = [
    ("", 1),
    ("panel 100 60 2 m p\n", 2),
    ("panel 100 60 2 m p\nopen\n", 3),
];

/// The first word of a line, and the place returned by it at 80 bytes, filled up with spaces, in each stage.
const WORDS: [(&str, [usize; 3]); 4] = [
    ("panel", [6, 0, 0]),
    ("open", [0, 5, 0]),
    ("lift 1", [0, 0, 7]),
    ("", [0, 0, 0]),
];

/// A job that ends in a line of this many bytes: a word and spaces behind it.
fn ends_in(
    heap: Global,
    before: &str,
    word: &str,
    bytes: usize,
    newline: bool,
) -> Result<Vec<u8>, Fail> {
    let mut line = word.as_bytes().to_vec(heap)?;
    line.resize(bytes, b' ')?;
    let mut job = before.as_bytes().to_vec(heap)?;
    job.extend_from_slice(line.as_slice())?;
    if newline {
        job.push(b'\n')?;
    }
    Ok(job)
}

#[test]
fn lines_of_80_and_81_bytes(rt: HostRuntime) -> Result<(), Fail> {
    let heap = rt.alloc();
    for newline in [false, true] {
        for (word, places) in &WORDS {
            for ((before, number), place) in STAGES.iter().zip(places.iter()) {
                let number = *number;
                let place = *place;
                let job = ends_in(heap, *before, *word, 80, newline)?;
                let text = run_job(heap, job.as_slice())?;
                let answer = format!(in heap; "no 16 {number} job {place}\n")?;
                assert_eq!(rt; text.as_str(), answer.as_str());
                let job = ends_in(heap, *before, *word, 81, newline)?;
                let text = run_job(heap, job.as_slice())?;
                let answer = format!(in heap; "no 16 {number} job 80\n")?;
                assert_eq!(rt; text.as_str(), answer.as_str());
            }
        }
    }
    Ok(())
}

/// A job with a long line up to this many bytes, and one byte behind them.
fn long_job(heap: Global, bytes: usize, last: u8) -> Result<Vec<u8>, Fail> {
    let mut job = b"panel 100 60 2 m p\nopen\nlift 1\n".to_vec(heap)?;
    job.resize(bytes, b'x')?;
    job.push(last)?;
    Ok(job)
}

#[test]
fn jobs_of_65536_bytes_and_more(rt: HostRuntime) -> Result<(), Fail> {
    let heap = rt.alloc();
    for last in [b'x', b'\n'] {
        let job = long_job(heap, 65_535, last)?;
        assert_eq!(rt; job.len(), 65_536);
        let text = run_job(heap, job.as_slice())?;
        assert_eq!(rt; text.as_str(), "no 9 3 panel 0\nno 16 4 job 80\n");
        for bytes in [65_536, 65_537, 131_071] {
            let job = long_job(heap, bytes, last)?;
            let text = run_job(heap, job.as_slice())?;
            assert_eq!(rt; text.as_str(), "no 16 0 job 65536\n");
        }
    }
    Ok(())
}
