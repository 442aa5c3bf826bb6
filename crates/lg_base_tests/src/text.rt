//! Text that is copied and grows.

use lg_text::Text;
use std::test::Fail;

#[test]
fn text_is_copied_and_grows(rt: HostRuntime) -> Result<(), Fail> {
    let mut text = Text::copy_of(rt.alloc(), "NOT")?;
    assert!(rt; !text.is_empty());
    text.push_str(" Gate")?;
    assert_eq!(rt; text.as_str(), "NOT Gate");
    assert_eq!(rt; text.len(), 8);
    let bytes = [b'o', b'k'].to_vec(rt.alloc())?;
    assert_eq!(rt; Text::from_ascii(bytes).as_bytes(), b"ok".as_slice());
    let same = Text::from_string(text.into_string());
    assert_eq!(rt; same.as_str(), "NOT Gate");
    assert!(rt; Text::new(rt.alloc()).is_empty());
    Ok(())
}
