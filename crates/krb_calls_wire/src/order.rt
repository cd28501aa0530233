//! The order of the numbers of per-message tokens. (The library for C makes and takes the tokens.)

use krb_context::{Order, Window};
use krb_words::{Answer, Words};

/// ```text
/// window FIRST NUMBER..        how each number stands to those that were taken before it; and whether it is the next one, and whether it
///                              is new
/// ```
pub(crate) fn answer(words: &mut Words, out: &mut Answer) -> Option<()> {
    let mut window = Window::new(words.next()?.parse::<u64>().ok()?);
    for _ in 0..u32::MAX {
        if words.is_at_end() {
            break;
        }
        let number = words.next()?.parse::<u64>().ok()?;
        show(window.take(number), out);
    }
    Some(())
}

fn show(order: Order, out: &mut Answer) -> Option<()> {
    out.named(order);
    out.truth(order.is_next());
    out.truth(order.is_new())
}
