//! Memory images.

ghost use Rattle.lg_value.specs.Word.{IsWidth};

use lg_memory::{ImageFault, read_image};
use std::alloc::Global;

// The refusal of an image, if it is refused.
fn refusal(alloc: Global, text: &[u8], width: u32, words: u32) -> Option<ImageFault>
    requires { IsWidth width }
{
    read_image(alloc, text, width, words).err()
}

#[test]
fn a_megabyte_of_runs(rt: HostRuntime) {
    let Ok(mut text) = Vec::from_slice(rt.alloc(), b"v2.0 raw\n") else {
        panic!(rt; "memory");
    };
    for _run in 0..100_000 {
        assert!(rt; text.extend_from_slice(b"1048576*0\n").is_ok());
    }
    let long = Some(ImageFault::ImageTooLong);
    assert_eq!(rt; refusal(rt.alloc(), text.as_slice(), 8, 1_048_576), long);
    assert!(rt; text.extend_from_slice(b"g").is_ok());
    let bad = Some(ImageFault::NotImage);
    assert_eq!(rt; refusal(rt.alloc(), text.as_slice(), 8, 1_048_576), bad);
}
