// What is printed.
use std::io;

// A text and a number.
pub(crate) fn number(rt: &impl Print, text: &[u8], n: u32) -> io::Result<()> {
    rt.write_all(text)?;
    print!(rt; "{n}")
}

// A text and bytes.
pub(crate) fn bytes(rt: &impl Print, text: &[u8], bytes: &[u8]) -> io::Result<()> {
    rt.write_all(text)?;
    for b in bytes {
        print!(rt; "{b:02x}")?;
    }
    Ok(())
}

// The title of an answer, and a colon; nothing where there is no title.
pub(crate) fn title(rt: &impl Print, title: &[u8]) -> io::Result<()> {
    if !title.is_empty() {
        rt.write_all(title)?;
        rt.write_all(b": ")?;
    }
    Ok(())
}

// The end of an answer's line; nothing where there is no title.
pub(crate) fn end(rt: &impl Print, title: &[u8]) -> io::Result<()> {
    if !title.is_empty() {
        rt.write_all(b"\n")?;
    }
    Ok(())
}

// What stands in place of an answer.
pub(crate) fn not_understood(rt: &impl Print, line: &[u8]) -> io::Result<()> {
    rt.write_all(b"not understood: ")?;
    rt.write_all(line)?;
    rt.write_all(b"\n")
}
