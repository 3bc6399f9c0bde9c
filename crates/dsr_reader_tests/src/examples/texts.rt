//! The examples of dsr_texts.
use dsr_texts::{Text, Texts, line_end, text_of};
use std::test::Fail;

/// The end of a line, and whether bytes are a text.
#[test]
fn lines_and_texts(rt: HostRuntime) -> Result<(), Fail> {
    assert_eq!(rt; line_end(b"S1\nS2\n"), 2);
    assert_eq!(rt; text_of(b"S1"), Some("S1"));
    // The first byte of a character of two bytes, without the second.
    assert!(rt; text_of(b"\xc3").is_none());
    Ok(())
}

/// A text is written over another, and a list over the items that it had.
#[test]
fn a_text_and_a_list_written_over(rt: HostRuntime) -> Result<(), Fail> {
    let mut title = Text::copy_of(rt.alloc(), "A Title")?;
    title.assign(rt.alloc(), "Another Title")?;
    assert_eq!(rt; title.as_str(), "Another Title");
    let mut titles = Texts::new(rt.alloc());
    if titles.push(title).is_err() {
        return Err(Fail::new("out of memory"));
    }
    titles.restart();
    assert_eq!(rt; titles.len(), 0);
    Ok(())
}
