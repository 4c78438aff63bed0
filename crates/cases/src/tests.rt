// Lengths that the stored corpus does not have.
use super::length;

#[test]
fn reads_lengths(rt: HostRuntime) {
    assert_eq!(rt; length(b""), Some(0));
    assert_eq!(rt; length(b"005"), Some(5));
    assert_eq!(rt; length(b"1000009"), Some(1000009));
    assert_eq!(rt; length(b"1000010"), None);
    assert_eq!(rt; length(b"+5"), None);
    assert_eq!(rt; length(b"5 "), None);
}
