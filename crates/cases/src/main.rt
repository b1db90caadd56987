// Document 01's 'Cases to prove together' and PEP 508's own lines, run on the compiled readers. What the definitions say of the same texts is one statement
// in proofs/Together.antt; it stands in this crate, above all readers, since a table has to compute the version rules, which the readers only cite.
#![tactic(auto)]

mod ask;
mod typed;

use crate::ask::{ask_extras, ask_line, ask_marker, ask_name};
use output::{Output, Streams};

fn document_01(out: &mut Output) {
    ask_marker(out, "1", "os_name=='a'and os_name=='b'");
    ask_marker(out, "2", "os_name=='a' and(os_name=='b')");
    ask_marker(out, "3", "os_name=='a' or os_name=='b' and os_name=='c'");
    ask_marker(out, "4", "'a'=='b' or os_name=='c'");
    ask_marker(out, "5", "('a'=='b')");
    ask_marker(out, "6", "python_version in 'abc'");
    ask_marker(out, "7", "os_name ~= 'a'");
    ask_marker(out, "7", "'a' ~= os_name");
    ask_marker(out, "8", "os_name not in'x'");
    ask_marker(out, "8", "os_name not'x'");
    ask_marker(out, "9", "");
    ask_marker(out, "9", "os_name=='a");
    ask_extras(out, "10", "[,");
    ask_extras(out, "10", "[a,]");
    ask_name(out, "11", "Foo._-Bar");
    ask_line(out, "12", "foo-;");
}

fn pep_508(out: &mut Output) {
    let lines = [
        "A",
        "A.B-C_D",
        "aa",
        "name",
        "name<=1",
        "name>=3",
        "name>=3,<2",
        "name@http://foo.com",
        "name [fred,bar] @ http://foo.com ; python_version=='2.7'",
        "name[quux, strange];python_version<'2.7' and platform_version=='2'",
        "name; os_name=='a' or os_name=='b'",
        "name; os_name=='a' and os_name=='b' or os_name=='c'",
        "name; os_name=='a' and (os_name=='b' or os_name=='c')",
        "name; os_name=='a' or os_name=='b' and os_name=='c'",
        "name; (os_name=='a' or os_name=='b') and os_name=='c'",
        "requests [security,tests] >= 2.8.1, == 2.8.* ; python_version < \"2.7\"",
        "pip @ https://github.com/pypa/pip/archive/1.3.1.zip#sha1=da9234ee9982d4bbb3c72346a6de940a148ea686",
    ];
    for line in lines {
        ask_line(out, "PEP 508", line);
    }
}

fn main(rt: HostRuntime) {
    let mut out = Output::to(Streams::of(&rt));
    document_01(&mut out);
    pep_508(&mut out);
    out.flush();
}
