// Lines in buffers that held `#` everywhere.
use logic::refusal::{BadLength, Refusal, Report};
use verdict::Verdict;
use verdict::line::{LineFault, line};

// What line answers, and what it leaves of the buffer.
fn written<const N: usize>(verdict: Verdict) -> (Result<usize, LineFault>, [u8; N]) {
    let mut out = [b'#'; N];
    let answer = line(verdict, &mut out);
    (answer, out)
}

// Number and place for a buffer of so many bytes.
fn short(length: usize) -> Result<usize, Report> {
    Err(Report {
        number: 20,
        place: length,
    })
}

#[test]
fn three_kinds(rt: HostRuntime) {
    assert_eq!(rt;
        written(Verdict::Closed(4)),
        (Ok(23), *b"closed, entries used 4\n###########")
    );
    assert_eq!(rt;
        written(Verdict::Satisfied(2)),
        (Ok(22), *b"satisfied, elements 2\n############")
    );
    assert_eq!(rt;
        written(Verdict::Refused {
            number: 13,
            place: 7
        }),
        (Ok(16), *b"refused 13 at 7\n##################")
    );
}

#[test]
fn zero_and_largest(rt: HostRuntime) {
    assert_eq!(rt;
        written(Verdict::Refused {
            number: 0,
            place: 0
        }),
        (Ok(15), *b"refused 0 at 0\n###################")
    );
    assert_eq!(rt;
        written(Verdict::Satisfied(u32::MAX)),
        (Ok(31), *b"satisfied, elements 4294967295\n###")
    );
    assert_eq!(rt;
        written(Verdict::Refused {
            number: 1_000_000_000,
            place: 10
        }),
        (Ok(25), *b"refused 1000000000 at 10\n#########")
    );
    assert_eq!(rt;
        written(Verdict::Refused {
            number: u32::MAX,
            place: u32::MAX
        }),
        (Ok(33), *b"refused 4294967295 at 4294967295\n#")
    );
}

#[test]
fn buffers(rt: HostRuntime) {
    let (refused, out) = written(Verdict::Closed(4));
    assert_eq!(rt; (refused, out), (Err(BadLength(32)), [b'#'; 32]));
    assert_eq!(rt; refused.map_err(|fault| fault.report()), short(32));
    let (refused, out) = written(Verdict::Closed(4));
    assert_eq!(rt; (refused, out), (Err(BadLength(0)), []));
    assert_eq!(rt; refused.map_err(|fault| fault.report()), short(0));
    assert_eq!(rt;
        written(Verdict::Closed(4)),
        (Ok(23), *b"closed, entries used 4\n##########")
    );
}
