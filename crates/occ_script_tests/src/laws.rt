use occ_script::{LawId, TABLE, find, name};

#[test]
fn names_and_numbers(rt: HostRuntime) {
    let cases: [(&str, Option<LawId>); 8] = [
        ("seq-none", Some(LawId(1))),
        ("io-alt", Some(LawId(15))),
        ("if-none", Some(LawId(16))),
        ("alt-least", Some(LawId(36))),
        ("par-expand", Some(LawId(45))),
        ("chan-par", Some(LawId(63))),
        ("seq-non", None),
        ("", None),
    ];
    for (text, law) in cases {
        assert_eq!(rt; find(text.as_bytes()), law);
    }
    assert_eq!(rt; name(LawId(20)), "if-cut");
    assert_eq!(rt; TABLE.names.len(), 63);
}
