//! Names of pins and numbers of nets.

use lg_names::*;
use lg_text::Text;
use std::alloc::{AllocError, Global};
use std::test::Fail;

#[test]
fn labels_give_names(rt: HostRuntime) -> Result<(), Fail> {
    let alloc = rt.alloc();
    let long = "x".repeat(alloc, 300)?;
    let cut = "x".repeat(alloc, 256)?;
    let table = [
        ("A", "A"),
        ("  spaces at both ends ", "spaces_at_both_ends"),
        ("", "pin"),
        ("   ", "pin"),
        ("\tx", "_x"),
        ("Übertrag", "_bertrag"),
        ("日本", "__"),
        ("a-b.c", "a_b_c"),
        (long.as_str(), cut.as_str()),
    ];
    for (label, name) in table {
        assert_eq!(rt; name_of_label(alloc, label)?.as_str(), name, "{label}");
    }
    Ok(())
}

#[test]
fn taken_names_get_numbers(rt: HostRuntime) -> Result<(), Fail> {
    let table: [(&'static [&'static str], &'static str); 4] = [
        (
            &["A", "A", "A_2", "B", "A", "a", "B "],
            "A A_2 A_2_2 B A_3 a B_2 ",
        ),
        (&["A", "A", "A_2"], "A A_2 A_2_2 "),
        (&["a-b", "a.b"], "a_b a_b_2 "),
        (&["A_2", "A", "A", "A"], "A_2 A A_3 A_4 "),
    ];
    for (labels, expected) in table {
        assert_eq!(rt; names_of(rt.alloc(), labels)?.as_str(), expected);
    }
    Ok(())
}

// The names of pins with these labels, a space after each.
fn names_of(alloc: Global, labels: &'static [&'static str]) -> Result<String, AllocError> {
    let mut texts = Vec::new(alloc);
    for label in labels {
        texts.push(Text::copy_of(alloc, label)?)?;
    }
    let names = pin_names(alloc, texts.as_slice())?;
    let mut all = String::new(alloc);
    for name in names.as_slice() {
        all.push_str(name.as_str())?;
        all.push_str(" ")?;
    }
    Ok(all)
}

#[test]
fn equal_labels_count_up(rt: HostRuntime) -> Result<(), Fail> {
    let alloc = rt.alloc();
    let mut labels = Vec::new(alloc);
    for _ in 0..2000 {
        labels.push(Text::copy_of(alloc, "A")?)?;
    }
    let names = pin_names(alloc, labels.as_slice())?;
    let last = names.get(1999).map(|name| name.as_str());
    assert_eq!(rt; last, Some("A_2000"));
    Ok(())
}

#[test]
fn classes_are_numbered_by_first_appearance(rt: HostRuntime) -> Result<(), Fail> {
    let (numbers, count) = numbered(rt.alloc(), &[3, 3, 0, 3, 9, 0], 10)?;
    assert_eq!(rt; numbers.as_slice(), [0, 0, 1, 0, 2, 1].as_slice());
    assert_eq!(rt; count, 3);
    Ok(())
}
