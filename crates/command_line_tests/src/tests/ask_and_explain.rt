//! Lines of `ask`, with each form, and of `explain`.

use super::are_shown;
use std::test::Fail;

const ASK: [(&str, &str); 11] = [
    (
        "osm_mirror ask node(1);out;",
        "Ask { query: \"node(1);out;\", form: Opl }",
    ),
    (
        "/usr/bin/osm_mirror ask node(-3);out;",
        "Ask { query: \"node(-3);out;\", form: Opl }",
    ),
    ("osm_mirror ask -- -x", "Ask { query: \"-x\", form: Opl }"),
    (
        "osm_mirror ask -- --form",
        "Ask { query: \"--form\", form: Opl }",
    ),
    ("osm_mirror ask ", "Ask { query: \"\", form: Opl }"),
    ("osm_mirror ask ask", "Ask { query: \"ask\", form: Opl }"),
    ("m ask q --form opl", "Ask { query: \"q\", form: Opl }"),
    ("m ask q --form json", "Ask { query: \"q\", form: Json }"),
    ("m ask --form=json q", "Ask { query: \"q\", form: Json }"),
    ("m ask --form xml q", "Ask { query: \"q\", form: Xml }"),
    ("osm_mirror explain O9", "Explain { code: \"O9\" }"),
];

#[test]
fn reads_ask_and_explain(rt: HostRuntime) -> Result<(), Fail> {
    are_shown(&rt, rt.alloc(), &ASK)
}
