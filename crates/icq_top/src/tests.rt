// What no clause says: that memory serves, and how texts look.
use crate::command::sim_command;
use crate::line::{Broken, Line};
use crate::stop::{Stop, fault_status};
use crate::words::read_words;
use gd_sim::FirstNo;
use ic_base::{Bytes, ConnKey, SegId, Text};
use ic_edge::{Fail, Fails, MemSink, MemSource};
use pl_plan::{PlanFault, Rule};
use pl_read::DocFault;
use std::alloc::{AllocError, Global};
use std::test::Fail as TestFail;

/// The words between blanks.
fn words_of(alloc: Global, line: &str) -> Result<Vec<String>, AllocError> {
    let mut words = Vec::new(alloc);
    for word in line.split(' ') {
        words.push(String::from_str(alloc, word)?)?;
    }
    Ok(words)
}

/// Whether words are a command that loses these sends, or with none no command.
fn says(alloc: Global, line: &str, wanted: Option<&[u32]>) -> Result<bool, AllocError> {
    let words = words_of(alloc, line)?;
    Ok(match read_words(alloc, &words) {
        Ok(drops) => wanted == Some(drops.as_slice()),
        Err(_) => wanted.is_none(),
    })
}

#[test]
fn words_lose_sends_that_increase_or_are_no_command(rt: HostRuntime) -> Result<(), TestFail> {
    let table: [(&str, Option<&[u32]>); 12] = [
        ("sim", Some(&[])),
        ("sim drop=9,10,4294967295", Some(&[9, 10, 4294967295])),
        ("", None),
        ("run", None),
        ("sim ", None),
        ("sim drop=", None),
        ("sim drop=01", None),
        ("sim drop=1,", None),
        ("sim drop=1,1", None),
        ("sim drop=4294967296", None),
        ("sim drop=1 drop=2", None),
        ("drop=1 sim", None),
    ];
    for (line, wanted) in table {
        assert!(rt; says(rt.alloc(), line, wanted)?, "at {line}");
    }
    Ok(())
}

/// The line of an item.
fn line_of<L: Line>(alloc: Global, item: &L) -> Result<String, AllocError> {
    let mut line = String::new(alloc);
    item.push_line(&mut line)?;
    Ok(line)
}

#[test]
fn each_stop_has_its_status_in_its_line(rt: HostRuntime) -> Result<(), TestFail> {
    let alloc = rt.alloc();
    let unread = Stop::Unread(DocFault {
        code: 7,
        path: Text::from_string(String::from_str(alloc, "$.tables[0].rows[1]")?),
    });
    let unsound = |rule| Stop::Unsound {
        query: 3,
        fault: PlanFault { node: 4, rule },
    };
    let table = [
        (Stop::Usage, 1, "error 1 usage\n"),
        (
            unread,
            2,
            "error 2 document code 7 path $.tables[0].rows[1]\n",
        ),
        (
            unsound(Rule::AggLocus),
            3,
            "error 3 plan query 3 node 4 rule 5\n",
        ),
        (
            unsound(Rule::TooWide(2147483649)),
            3,
            "error 3 plan query 3 node 4 rule 11 bytes 2147483649\n",
        ),
        (
            unsound(Rule::TooMany(1025)),
            3,
            "error 3 plan query 3 node 4 rule 12 workers 1025\n",
        ),
        (Stop::ReadFault, 4, "error 4 read\n"),
        (Stop::Memory, 10, "error 10 memory\n"),
        (Stop::TooLong, 11, "error 11 input too long\n"),
        (Stop::NotBuilt, 15, "error 15 not built\n"),
    ];
    for (stop, status, wanted) in table {
        assert_eq!(rt; stop.status(), status, "at {wanted}");
        assert_eq!(rt; line_of(alloc, &stop)?.as_str(), wanted);
    }
    Ok(())
}

/// The connection of a gather.
fn connection(from: SegId) -> ConnKey {
    ConnKey {
        session: 7,
        query: 1,
        motion: 2,
        from,
        to: SegId::DISPATCHER,
    }
}

#[test]
fn each_fault_names_its_query_and_its_connection(rt: HostRuntime) -> Result<(), TestFail> {
    let alloc = rt.alloc();
    let key = connection(SegId::new(5).ok_or("5 is a segment")?);
    let table = [
        (
            FirstNo::Unfinished(100000),
            9,
            "error 9 unfinished query 2 rounds 100000\n",
        ),
        (
            FirstNo::Spent {
                key,
                seq: 6,
                tries: 20,
            },
            8,
            "error 8 spent query 1 motion 2 from 5 to -1 seq 6 tries 20\n",
        ),
        (
            FirstNo::TooLong(key),
            12,
            "error 12 stream too long query 1 motion 2 from 5 to -1\n",
        ),
    ];
    for (fault, status, wanted) in table {
        assert_eq!(rt; fault_status(&fault), status, "at {wanted}");
        let broken = Broken { query: 2, fault };
        assert_eq!(rt; line_of(alloc, &broken)?.as_str(), wanted);
    }
    Ok(())
}

/// A gather of four rows over two segments.
const EXAMPLE: &str =
    r#"{"session":7,"segments":2,"tables":[{"name":"t","columns":[["a","int"]],"rows":[[10],[11],[12],[13]]}],"queries":[{"op":"gather","child":{"op":"scan","table":"t"}}]}"#;

/// What it writes.
const ANSWER: &str = "[10]\n[12]\n[11]\n[13]\n# 1 1 0 -1 2 2 1 0 whole\n# 1 1 1 -1 2 2 1 0 whole\n";

/// The call with this number, from 1, fails; none does at 0.
fn failing(alloc: Global, nth: u32) -> Result<Fails, AllocError> {
    let fail = Fail { worker: None, nth };
    Ok(Fails::from_vec(vec![in alloc; fail]?))
}

/// The status and the text of a run in which this read and this write fail.
fn told(
    alloc: Global,
    line: &str,
    text: &str,
    read: u32,
    write: u32,
) -> Result<(u8, String), AllocError> {
    let words = words_of(alloc, line)?;
    let bytes = Bytes::from_slice(alloc, text.as_bytes())?;
    let mut source = MemSource::new(bytes, failing(alloc, read)?);
    let mut sink = MemSink::new(alloc, failing(alloc, write)?)?;
    let report = sim_command(alloc, &words, &mut source, &mut sink);
    let text = String::from_utf8_lossy(alloc, sink.bytes())?;
    Ok((report.status, text))
}

#[test]
fn a_run_is_told_up_to_the_first_write_that_fails(rt: HostRuntime) -> Result<(), TestFail> {
    let table = [
        ("sim", EXAMPLE, 0, 0, 0, ANSWER),
        ("sim", EXAMPLE, 0, 1, 5, ""),
        ("sim", EXAMPLE, 0, 3, 5, "[10]\n[12]\n"),
        (
            "sim",
            EXAMPLE,
            0,
            6,
            5,
            "[10]\n[12]\n[11]\n[13]\n# 1 1 0 -1 2 2 1 0 whole\n",
        ),
        ("run", EXAMPLE, 0, 0, 1, "error 1 usage\n"),
        ("run", EXAMPLE, 0, 1, 5, ""),
        ("run", "", 1, 0, 1, "error 1 usage\n"),
        ("sim", EXAMPLE, 1, 0, 4, "error 4 read\n"),
        ("sim", "{}", 2, 0, 4, "error 4 read\n"),
        (
            "sim",
            "{}",
            0,
            0,
            2,
            "error 2 document code 3 path $.session\n",
        ),
    ];
    for (line, text, read, write, status, wanted) in table {
        let told = told(rt.alloc(), line, text, read, write)?;
        assert_eq!(rt; told.0, status, "{line} {read} {write}");
        assert_eq!(rt; told.1.as_str(), wanted, "{line} {read} {write}");
    }
    Ok(())
}
