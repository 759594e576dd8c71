use super::*;

// "NID_ATOTS (2, 0-16,383; absent means 16,384)", with one byte behind it: the number, and how many bytes are left.
#[test]
fn optional_of_its_width(rt: HostRuntime) {
    for (bytes, present, want) in [
        ([0x3F, 0xFF, 9], true, Some((16383, 1))),
        ([0x40, 0x00, 9], true, None),
        ([0x3F, 0xFF, 9], false, Some((16384, 3))),
    ] {
        let read = read_optional::<u16>(&bytes, present, 16384, 0, 16383);
        assert_eq!(rt;
            read.map(|(n, rest)| (n, rest.len())),
            want,
            "present {present}"
        );
    }
}
