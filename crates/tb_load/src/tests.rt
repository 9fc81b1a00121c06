// A document that is loaded. The segments of keys were worked out apart from this program, by the rule of the hash.
use crate::load;
use ic_base::SegId;
use pl_read::read_document;
use std::test::*;

/// A table with a key of two columns, one with a key of texts, a dealt one, and one that stands everywhere.
const FOUR: &str =
    r#"{"session":7,"segments":2,"tables":[{"name":"two","columns":[["n","int"],["a","int"],["b","int"]],"key":[1,2],"rows":[[1,0,0],[2,0,1],[3,1,0],[4,1,1]]},{"name":"k","columns":[["a","int"],["b","text"]],"key":[0],"rows":[[0,"x"],[1,"y"],[255,"é"],[null,"z"],[254,null]]},{"name":"d","columns":[["a","int"]],"rows":[[20],[21],[22]]},{"name":"e","columns":[["a","int"]],"replicated":true,"rows":[[30],[31]]}],"queries":[]}"#;

#[test]
fn rows_stand_where_their_tables_place_them(rt: HostRuntime) -> Result<(), Fail> {
    let loaded = load(rt.alloc(), read_document(rt.alloc(), FOUR.as_bytes())?)?;
    let table = [
        (
            0,
            0,
            "[Row { values: [Int(2), Int(0), Int(1)] }, Row { values: [Int(3), Int(1), Int(0)] }]",
        ),
        (
            0,
            1,
            "[Row { values: [Int(1), Int(0), Int(0)] }, Row { values: [Int(4), Int(1), Int(1)] }]",
        ),
        (
            1,
            0,
            r#"[Row { values: [Int(0), Chars(Text { text: "x" })] }, Row { values: [Int(254), Null] }]"#,
        ),
        (
            1,
            1,
            r#"[Row { values: [Int(1), Chars(Text { text: "y" })] }, Row { values: [Int(255), Chars(Text { text: "é" })] }, Row { values: [Null, Chars(Text { text: "z" })] }]"#,
        ),
        (
            2,
            0,
            "[Row { values: [Int(20)] }, Row { values: [Int(22)] }]",
        ),
        (2, 1, "[Row { values: [Int(21)] }]"),
        (
            3,
            1,
            "[Row { values: [Int(30)] }, Row { values: [Int(31)] }]",
        ),
        (3, -1, "[]"),
    ];
    for (table, at, wanted) in table {
        let at = SegId::new(at).ok_or("a segment")?;
        let rows = format!(in rt.alloc(); "{:?}", loaded.rows(table, at))?;
        assert_eq!(rt; rows.as_str(), wanted);
    }
    Ok(())
}
