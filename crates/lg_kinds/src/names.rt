//! The names of attributes and ports that stand for several.

ghost use Rattle.std.specs.Prelude.{◌≡◌, IfOk};
ghost use Rattle.lg_kinds.specs.Rows.{name_at, is_numbered};

use crate::rows::Count;
use itoa::Buffer;
use lg_text::Text;
use std::alloc::{AllocError, Global};

/// The name of the attribute or the port number `k` of a row.
pub fn name_at(alloc: Global, name: &str, count: Count, k: u32) -> Result<Text, AllocError>
    ensures { IfOk result (λ text. text ≡ name_at name.now count k) }
{
    let mut text = Text::copy_of(alloc, name)?;
    if is_numbered(count) {
        let mut buffer = Buffer::new();
        text.push_str(buffer.format(k))?;
    }
    Ok(text)
}

// Whether a row stands for several, which are numbered.
fn is_numbered(count: Count) -> bool
    ensures { result ≡ is_numbered count }
{
    match count {
        Count::Inputs | Count::Incoming | Count::Selections | Count::Stages => true,
        Count::Once | Count::Enabled | Count::Extended | Count::Parallel | Count::Serial => false,
    }
}
