// What documents are read as, and the first fault in those that aren't.
use crate::{DocNo, read_document};
use std::alloc::{AllocError, Global};
use std::test::Fail;

/// What the table below varies. `PLAN` is a filter, and `TEST` its predicate.
const EXAMPLE: &str =
    r#"{"session":7,"segments":2,"tables":[{"name":"t","columns":[["a","int"],["b","text"]],"key":[0],"rows":[[10,"x"],[null,"é"]]},{"name":"u","columns":[["a","int"]],"rows":[]}],"queries":[PLAN]}"#;

const PLAN: &str = r#"{"op":"filter","where":TEST,"child":{"op":"scan","table":"é"}}"#;

/// What stands in the example, what stands there instead, and the fault then, or the plans.
const VARIANTS: &str = r#"
{ => [{ => 1 $
"session":7 => "sesion":7,"session":7 => 2 $.sesion
"session":7 => "z":1,"y":2,"x y":3,"session":0 => 2 $.x y
"session":7, =>  => 3 $.session
"session":7 => "session":null => 4 $.session
"session":7 => "session":7.0 => 4 $.session
"session":7 => "session":-0 => 4 $.session
"session":7 => "session":18446744073709551616 => 4 $.session
"session":7 => "session":18446744073709551615 => 5 $.session
"session":7 => "session":2147483648 => 5 $.session
"session":7 => "session":0 => 5 $.session
"session":7 => "session":-7 => 5 $.session
"segments":2 => "segments":65 => 5 $.segments
"segments":2 => "segments":2,"settings":null => 4 $.settings
"segments":2 => "segments":2,"settings":{"Packet":9} => 2 $.settings.Packet
"segments":2 => "segments":2,"settings":{"packet":127} => 5 $.settings.packet
"segments":2 => "segments":2,"settings":{"packet":65508} => 5 $.settings.packet
"segments":2 => "segments":2,"settings":{"receive_depth":257} => 5 $.settings.receive_depth
"segments":2 => "segments":2,"settings":{"send_depth":0} => 5 $.settings.send_depth
"segments":2 => "segments":2,"settings":{"retries":1001,"flow":"no"} => 5 $.settings.retries
"segments":2 => "segments":2,"settings":{"flow":"Loss"} => 4 $.settings.flow
"segments":2 => "segments":2,"settings":{"flow":1} => 4 $.settings.flow
"tables":[ => "tables":[7, => 4 $.tables[0]
"name":"t" => "name":"" => 5 $.tables[0].name
"name":"t" => "name":"aaaaaaaaaaaaaaaaaaaaaaaaaaaaaaaaaaaaaaaaaaaaaaaaaaaaaaaaaaaaaaaaa" => 5 $.tables[0].name
"name":"t", =>  => 3 $.tables[0].name
"name":"t" => "name":"t","index":[] => 2 $.tables[0].index
["b","text"] => ["a","text"] => 6 $.tables[0].columns[1][0]
["b","text"] => ["a","wide"] => 6 $.tables[0].columns[1][0]
["b","text"] => ["b","wide"] => 4 $.tables[0].columns[1][1]
["b","text"] => ["b"] => 5 $.tables[0].columns[1]
["b","text"] => "b" => 4 $.tables[0].columns[1]
[["a","int"],["b","text"]] => [] => 5 $.tables[0].columns
"key":[0] => "key":[] => 5 $.tables[0].key
"key":[0] => "key":[0,1,0,1] => 5 $.tables[0].key[2]
"key":[0] => "key":[2] => 5 $.tables[0].key[0]
"key":[0] => "key":[0,1,2,3,4,5,6,7,8] => 5 $.tables[0].key
"key":[0] => "key":["a"] => 4 $.tables[0].key[0]
"key":[0] => "key":[0],"replicated":true => 5 $.tables[0].replicated
"key":[0] => "key":[0],"replicated":0 => 4 $.tables[0].replicated
[null,"é"] => [null] => 7 $.tables[0].rows[1]
[null,"é"] => ["x",null,1] => 7 $.tables[0].rows[1]
[null,"é"] => {} => 4 $.tables[0].rows[1]
[null,"é"] => [null,2] => 4 $.tables[0].rows[1][1]
[null,"é"] => ["1",2] => 4 $.tables[0].rows[1][0]
[null,"é"] => [1.0,""] => 4 $.tables[0].rows[1][0]
[null,"é"] => [9223372036854775808,""] => 5 $.tables[0].rows[1][0]
{"name":"u", => {"name":"t","x":1, => 2 $.tables[1].x
{"name":"u", => {"name":"t","key":7, => 6 $.tables[1].name
"queries":[ => "queries":[[], => 4 $.queries[0]
"queries":[ => "querys":[ => 2 $.querys
PLAN => {"zz":1} => 3 $.queries[0].op
PLAN => {"op":"x","zz":1} => 4 $.queries[0].op
PLAN => {"op":1} => 4 $.queries[0].op
PLAN => {"op":"scan","zz":1} => 2 $.queries[0].zz
PLAN => {"op":"scan"} => 3 $.queries[0].table
PLAN => {"op":"scan","table":null} => 4 $.queries[0].table
PLAN => {"op":"limit","count":-1,"child":7} => 5 $.queries[0].count
PLAN => {"op":"limit","count":9223372036854775808} => 5 $.queries[0].count
PLAN => {"op":"limit","count":1,"child":7} => 4 $.queries[0].child
PLAN => {"op":"limit","count":1} => 3 $.queries[0].child
PLAN => {"op":"project","columns":[0,65536]} => 5 $.queries[0].columns[1]
PLAN => {"op":"sort","keys":[]} => 5 $.queries[0].keys
PLAN => {"op":"sort","keys":[[0,"asc",1]]} => 5 $.queries[0].keys[0]
PLAN => {"op":"sort","keys":[[0,"asc"],["0","up"]]} => 4 $.queries[0].keys[1][0]
PLAN => {"op":"sort","keys":[[0,"asc"],[0,"up"]]} => 4 $.queries[0].keys[1][1]
PLAN => {"op":"gather","order":null,"child":{}} => 4 $.queries[0].order
PLAN => {"op":"gather","order":[],"child":{}} => 5 $.queries[0].order
PLAN => {"op":"redistribute","keys":[],"child":{}} => 5 $.queries[0].keys
PLAN => {"op":"broadcast","child":{"op":"gather","child":{}}} => 3 $.queries[0].child.child.op
PLAN => {"op":"join","left":{"op":"scan","table":"t"},"right":{},"on":7} => 3 $.queries[0].right.op
PLAN => {"op":"join","left":{"op":"scan","table":"t"},"right":{"op":"scan","table":"t"},"on":[[0]]} => 5 $.queries[0].on[0]
PLAN => {"op":"join","left":{"op":"scan","table":"t"},"right":{"op":"scan","table":"t"},"on":[[0,-1]]} => 5 $.queries[0].on[0][1]
PLAN => {"op":"agg","a":1} => 3 $.queries[0].stage
PLAN => {"op":"agg","a":1,"stage":"half"} => 4 $.queries[0].stage
PLAN => {"op":"agg","stage":"final","calls":[],"child":{}} => 2 $.queries[0].calls
PLAN => {"op":"agg","stage":"single","calls":[],"child":{}} => 3 $.queries[0].group
PLAN => {"op":"agg","stage":"single","group":[],"calls":[[]],"child":{}} => 5 $.queries[0].calls[0]
PLAN => {"op":"agg","stage":"single","group":[],"calls":[["avg",0,1]],"child":{}} => 4 $.queries[0].calls[0][0]
PLAN => {"op":"agg","stage":"single","group":[],"calls":[["count",0,1]],"child":{}} => 5 $.queries[0].calls[0]
PLAN => {"op":"agg","stage":"partial","group":[],"calls":[["count"],["sum"]],"child":{}} => 5 $.queries[0].calls[1]
PLAN => {"op":"agg","stage":"partial","group":[],"calls":[["min",null]],"child":{}} => 4 $.queries[0].calls[0][1]
TEST => null => 4 $.queries[0].where
TEST => [] => 5 $.queries[0].where
TEST => [7] => 4 $.queries[0].where[0]
TEST => ["==",1,2,3] => 4 $.queries[0].where[0]
TEST => ["=",1] => 5 $.queries[0].where
TEST => ["=",1,2,3] => 5 $.queries[0].where
TEST => ["and"] => 5 $.queries[0].where
TEST => ["or",["null",1],null] => 4 $.queries[0].where[2]
TEST => ["not",["null",1],["null",1]] => 5 $.queries[0].where
TEST => ["not",["null",true]] => 4 $.queries[0].where[1][1]
TEST => ["null",[]] => 4 $.queries[0].where[1]
TEST => ["<",{"column":1,"col":0},1.5] => 2 $.queries[0].where[1].column
TEST => ["<",{},1.5] => 3 $.queries[0].where[1].col
TEST => ["<",{"col":65536},1.5] => 5 $.queries[0].where[1].col
TEST => ["<",{"col":0},1.5] => 4 $.queries[0].where[2]
TEST => ["<",{"col":0},9223372036854775808] => 5 $.queries[0].where[2]
PLAN => {"op":"project","columns":[],"child":{"op":"scan","table":"é"}} => [Plan { root: Project { columns: Items { items: [] }, child: Boxed { inner: Scan { table: Text { text: "é" } } } } }]
PLAN => {"op":"project","columns":[65535,0],"child":{"op":"scan","table":"é"}} => [Plan { root: Project { columns: Items { items: [65535, 0] }, child: Boxed { inner: Scan { table: Text { text: "é" } } } } }]
PLAN => {"op":"limit","count":9223372036854775807,"child":{"op":"scan","table":"é"}} => [Plan { root: Limit { count: 9223372036854775807, child: Boxed { inner: Scan { table: Text { text: "é" } } } } }]
PLAN => {"op":"sort","keys":[[1,"desc"],[0,"asc"]],"child":{"op":"scan","table":"é"}} => [Plan { root: Sort { keys: Items { items: [Key { column: 1, down: true }, Key { column: 0, down: false }] }, child: Boxed { inner: Scan { table: Text { text: "é" } } } } }]
PLAN => {"child":{"op":"scan","table":"é"},"op":"gather"} => [Plan { root: Gather { order: None, child: Boxed { inner: Scan { table: Text { text: "é" } } } } }]
PLAN => {"op":"gather","order":[[0,"asc"]],"child":{"op":"scan","table":"é"}} => [Plan { root: Gather { order: Some(Items { items: [Key { column: 0, down: false }] }), child: Boxed { inner: Scan { table: Text { text: "é" } } } } }]
PLAN => {"op":"redistribute","keys":[3,2],"child":{"op":"scan","table":"é"}} => [Plan { root: Redistribute { keys: Items { items: [3, 2] }, child: Boxed { inner: Scan { table: Text { text: "é" } } } } }]
PLAN => {"op":"broadcast","child":{"op":"scan","table":"é"}} => [Plan { root: Broadcast { child: Boxed { inner: Scan { table: Text { text: "é" } } } } }]
PLAN => {"op":"agg","stage":"single","group":[4],"calls":[["count"],["count",1]],"child":{"op":"scan","table":"é"}} => [Plan { root: Agg { stage: Single { group: Items { items: [4] }, calls: Items { items: [Count, CountOf(1)] } }, child: Boxed { inner: Scan { table: Text { text: "é" } } } } }]
PLAN => {"op":"agg","stage":"partial","group":[],"calls":[["sum",0],["min",1],["max",2]],"child":{"op":"scan","table":"é"}} => [Plan { root: Agg { stage: Partial { group: Items { items: [] }, calls: Items { items: [Sum(0), Min(1), Max(2)] } }, child: Boxed { inner: Scan { table: Text { text: "é" } } } } }]
PLAN => {"op":"agg","stage":"final","child":{"op":"scan","table":"é"}} => [Plan { root: Agg { stage: Final, child: Boxed { inner: Scan { table: Text { text: "é" } } } } }]
PLAN => {"op":"join","left":{"op":"scan","table":""},"on":[[0,1]],"right":{"op":"scan","table":"é"}} => [Plan { root: Join { left: Boxed { inner: Scan { table: Text { text: "" } } }, right: Boxed { inner: Scan { table: Text { text: "é" } } }, pairs: Items { items: [Pair { left: 0, right: 1 }] } } }]
TEST => ["=",{"col":0},-9223372036854775808] => [Plan { root: Filter { test: Compare { op: Eq, left: Col(0), right: Int(-9223372036854775808) }, child: Boxed { inner: Scan { table: Text { text: "é" } } } } }]
TEST => ["<>",{"col":65535},"é"] => [Plan { root: Filter { test: Compare { op: Ne, left: Col(65535), right: Chars(Text { text: "é" }) }, child: Boxed { inner: Scan { table: Text { text: "é" } } } } }]
TEST => ["<",null,9223372036854775807] => [Plan { root: Filter { test: Compare { op: Lt, left: Null, right: Int(9223372036854775807) }, child: Boxed { inner: Scan { table: Text { text: "é" } } } } }]
TEST => ["<=",1,2] => [Plan { root: Filter { test: Compare { op: Le, left: Int(1), right: Int(2) }, child: Boxed { inner: Scan { table: Text { text: "é" } } } } }]
TEST => [">",1,2] => [Plan { root: Filter { test: Compare { op: Gt, left: Int(1), right: Int(2) }, child: Boxed { inner: Scan { table: Text { text: "é" } } } } }]
TEST => [">=",1,null] => [Plan { root: Filter { test: Compare { op: Ge, left: Int(1), right: Null }, child: Boxed { inner: Scan { table: Text { text: "é" } } } } }]
TEST => ["and",["null",{"col":0}]] => [Plan { root: Filter { test: And(Items { items: [IsNull(Col(0))] }), child: Boxed { inner: Scan { table: Text { text: "é" } } } } }]
TEST => ["or",["null",null],["null",0],["null",""]] => [Plan { root: Filter { test: Or(Items { items: [IsNull(Null), IsNull(Int(0)), IsNull(Chars(Text { text: "" }))] }), child: Boxed { inner: Scan { table: Text { text: "é" } } } } }]
TEST => ["not",["null",{"col":1}]] => [Plan { root: Filter { test: Not(Boxed { inner: IsNull(Col(1)) }), child: Boxed { inner: Scan { table: Text { text: "é" } } } } }]
"#;

/// The plans of a document, or the code and the path of its fault.
fn told(alloc: Global, document: &str) -> Result<String, AllocError> {
    match read_document(alloc, document.as_bytes()) {
        Ok(document) => { format!(in alloc; "{:?}", document.queries.as_slice()) }
        Err(DocNo::Fault(fault)) => { format!(in alloc; "{} {}", fault.code, fault.path.as_str()) }
        Err(DocNo::Memory) => Err(AllocError),
    }
}

/// What is told of the example with this in place of that.
fn varied(alloc: Global, old: &str, new: &str) -> Result<String, AllocError> {
    let plan = PLAN.replace(alloc, old, new)?;
    let text = EXAMPLE.replace(alloc, old, new)?;
    let text = text.replace(alloc, "PLAN", plan.as_str())?;
    let text = text.replace(alloc, "TEST", r#"["null",0]"#)?;
    told(alloc, text.as_str())
}

#[test]
fn each_variant_is_read_or_its_first_fault_named(rt: HostRuntime) -> Result<(), Fail> {
    for line in VARIANTS.lines().skip(1) {
        let (old, rest) = line.split_once(" => ").ok_or("three parts")?;
        let (new, wanted) = rest.split_once(" => ").ok_or("three parts")?;
        let told = varied(rt.alloc(), old, new)?;
        assert_eq!(rt; told.as_str(), wanted, "{line}");
    }
    Ok(())
}

/// A document with all settings, and a table of each placing.
const WHOLE: &str =
    r#"{"session":1,"segments":64,"settings":{"flow":"capacity","retries":1000,"send_depth":256,"receive_depth":1,"packet":128},"tables":[{"name":"k","columns":[["a","int"],["b","text"]],"key":[1,0],"rows":[[-1,"é"],[null,null]]},{"name":"r","columns":[["a","int"]],"replicated":true,"rows":[]},{"name":"d","columns":[["a","int"]],"replicated":false,"rows":[]}],"queries":[]}"#;

const AS_READ: &str =
    r#"Document { session: 1, segments: 64, settings: Settings { packet: 128, receive_depth: 1, send_depth: 256, retries: 1000, flow: Capacity }, tables: Items { items: [Table { schema: Schema { name: Text { text: "k" }, kinds: Items { items: [Int, Chars] }, place: Keyed(Items { items: [1, 0] }) }, rows: Rows { items: [Row { values: [Int(-1), Chars(Text { text: "é" })] }, Row { values: [Null, Null] }] } }, Table { schema: Schema { name: Text { text: "r" }, kinds: Items { items: [Int] }, place: Everywhere }, rows: Rows { items: [] } }, Table { schema: Schema { name: Text { text: "d" }, kinds: Items { items: [Int] }, place: Dealt }, rows: Rows { items: [] } }] }, queries: Items { items: [] } }"#;

#[test]
fn a_document_is_read_whole(rt: HostRuntime) -> Result<(), Fail> {
    let document = read_document(rt.alloc(), WHOLE.as_bytes())?;
    let read = format!(in rt.alloc(); "{document:?}")?;
    assert_eq!(rt; read.as_str(), AS_READ);
    Ok(())
}

/// What is told of so many broadcasts over a scan.
fn told_of_a_chain(alloc: Global, nodes: usize) -> Result<String, AllocError> {
    let over = "{\"op\":\"broadcast\",\"child\":".repeat(alloc, nodes)?;
    let ends = "}".repeat(alloc, nodes)?;
    let plan = format!(in alloc; "{over}{{\"op\":\"scan\",\"table\":\"t\"}}{ends}")?;
    varied(alloc, "PLAN", plan.as_str())
}

#[test]
fn a_plan_has_at_most_64_nodes(rt: HostRuntime) -> Result<(), Fail> {
    let told = told_of_a_chain(rt.alloc(), 64)?;
    assert_eq!(rt; told.as_str(), "5 $.queries[0]");
    Ok(())
}
