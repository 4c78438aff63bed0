// Examples: each refusal of the text layer, words and numbers at their limits, and the spots of words.
use super::check::check_text;
use super::names::{atom_of, named, names_at};
use super::reader::{Piece, Reader};
use super::word::{Key, word_of};
use faults::{Spot, TextFault};
use std::test::Fail;
use tables::table::Place;

fn number(bytes: &[u8]) -> Option<i32> {
    word_of(Piece {
        bytes,
        at: Spot::new(1, 1),
    })
    .number_in(-1000000, 1000000)
}

fn is_name(bytes: &[u8]) -> bool {
    word_of(Piece {
        bytes,
        at: Spot::new(1, 1),
    })
    .name()
    .is_some()
}

#[test]
fn refuses_the_end_and_bytes(rt: HostRuntime) {
    assert_eq!(rt; check_text(b"a b\nc\n"), Ok(()));
    assert_eq!(rt; check_text(b""), Err(TextFault::NoEnd));
    assert_eq!(rt; check_text(b"a\nb"), Err(TextFault::NoEnd));
    assert_eq!(rt;
        check_text(b"a\n  \tb\n"),
        Err(TextFault::BadByte(Spot::new(2, 3)))
    );
    assert_eq!(rt;
        check_text(b"a\n\x7f\n"),
        Err(TextFault::BadByte(Spot::new(2, 1)))
    );
}

#[test]
fn refuses_spacing(rt: HostRuntime) {
    assert_eq!(rt;
        check_text(b"a\n\nb\n"),
        Err(TextFault::Spacing(Spot::new(2, 1)))
    );
    assert_eq!(rt; check_text(b"\n"), Err(TextFault::Spacing(Spot::new(1, 1))));
    assert_eq!(rt;
        check_text(b"a\n b\n"),
        Err(TextFault::Spacing(Spot::new(2, 1)))
    );
    assert_eq!(rt;
        check_text(b"a \n"),
        Err(TextFault::Spacing(Spot::new(1, 2)))
    );
    assert_eq!(rt;
        check_text(b"a  b\n"),
        Err(TextFault::Spacing(Spot::new(1, 3)))
    );
}

#[test]
fn refuses_a_long_text(rt: HostRuntime) {
    let long = [10; 16385];
    assert_eq!(rt; check_text(&long), Err(TextFault::TooLong));
    assert_eq!(rt;
        check_text(&long[1..]),
        Err(TextFault::Spacing(Spot::new(1, 1)))
    );
}

#[test]
fn reads_numbers(rt: HostRuntime) {
    assert_eq!(rt; number(b"0"), Some(0));
    assert_eq!(rt; number(b"1000000"), Some(1000000));
    assert_eq!(rt; number(b"-1000000"), Some(-1000000));
    assert_eq!(rt; number(b"1000001"), None);
    assert_eq!(rt; number(b"99999999999999999999"), None);
    assert_eq!(rt; number(b"-0"), None);
    assert_eq!(rt; number(b"01"), None);
    assert_eq!(rt; number(b"+1"), None);
    assert_eq!(rt; number(b"-"), None);
}

#[test]
fn reads_names(rt: HostRuntime) {
    assert!(rt; is_name(b"a_23456789012345"));
    assert!(rt; is_name(b"iff"));
    assert!(rt; !is_name(b"a_234567890123456"));
    assert!(rt; !is_name(b"_a"));
    assert!(rt; !is_name(b"aB"));
    assert!(rt; !is_name(b"load"));
}

#[test]
fn reads_words(rt: HostRuntime) -> Result<(), Fail> {
    let mut text = Reader::new(b"a\nbc if 7\n");
    let _ = text.line();
    let mut line = text.line();
    let name = word_of(line.word().ok_or("no name")?);
    let key = word_of(line.word().ok_or("no key")?);
    let number = word_of(line.word().ok_or("no number")?);
    assert_eq!(rt; name.spot(), Spot::new(2, 1));
    assert_eq!(rt; key.key(), Some(Key::If));
    assert_eq!(rt; key.spot(), Spot::new(2, 4));
    assert_eq!(rt; number.number_in(0, 6), None);
    assert_eq!(rt; number.number_in(0, 7), Some(7));
    assert_eq!(rt; line.end(), Spot::new(2, 8));
    assert!(rt; line.word().is_none());
    assert!(rt; !text.has_line());
    Ok(())
}

#[test]
fn finds_atoms(rt: HostRuntime) {
    let text = b"a\nbc\n";
    let places = [Place { from: 0, len: 1 }, Place { from: 2, len: 2 }];
    assert_eq!(rt; atom_of(text, &places, b"bc"), Some(1));
    assert_eq!(rt; atom_of(text, &places, b"b"), None);
}

#[test]
fn finds_names(rt: HostRuntime) {
    let places = [Place { from: 0, len: 1 }, Place { from: 2, len: 2 }];
    let names = names_at(b"a\nbc\n", &places);
    assert_eq!(rt; named(names.as_slice(), b"bc"), Some(1));
    assert_eq!(rt; named(names.as_slice(), b"b"), None);
}
