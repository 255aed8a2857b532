use data_layer::Layer;
use gtm_base::{Files, Keyed, ListOf, MemFiles, MemSink, OutSink, Sink, Text, put, read_whole};
use gtm_data::{
    Data, Members, copy, from_json, get, json_text, text_of, whole_text, write_json, write_quoted,
};
use run_log::{Line, put_line};
use serde_json::Value;
use std::io::{self, ErrorKind, Write};
use std::str::FromStr;
use std::test::Fail;

// Each call that takes memory succeeds where there is enough.
#[test]
fn texts_and_lists(rt: HostRuntime) -> Result<(), Fail> {
    let alloc = rt.alloc();
    let mut text = Text::from_str(alloc, "a")?;
    text.push('b')?;
    text.push_str("c\u{e9}")?;
    text.push_word("d")?;
    text.push_unsigned(12)?;
    text.push_signed(-3)?;
    assert_eq!(rt; text.copy(alloc)?.as_str(), "abc\u{e9}d12-3");
    text.set("x")?;
    assert_eq!(rt; text.as_str(), "x");
    assert_eq!(rt; Text::with_room(alloc, 9)?.as_str(), "");
    let mut list = ListOf::from_slice(alloc, &[1u8, 3])?;
    list.push(4)?;
    list.insert(1, 2)?;
    list.reverse();
    assert_eq!(rt; list.as_slice(), [4u8, 3, 2, 1].as_slice());
    assert_eq!(rt; list.remove(1), 3);
    assert_eq!(rt; list.pop(), Some(1));
    assert_eq!(rt; list.as_slice(), [4u8, 2].as_slice());
    let mut keyed = Keyed::new(alloc);
    keyed.push(Text::from_str(alloc, "k")?, 7u8)?;
    assert_eq!(rt; keyed.get("k"), Some(&7u8));
    Ok(())
}

#[test]
fn files_in_memory(rt: HostRuntime) -> Result<(), Fail> {
    let alloc = rt.alloc();
    let mut files = MemFiles::new(alloc);
    files.add("a", b"old")?;
    files.add("a", b"text")?;
    files.fail_at(9)?;
    if files.open("a").is_ok() {
        let bytes = read_whole(alloc, &mut files, 3)?;
        assert_eq!(rt; bytes.as_slice(), b"tex".as_slice());
        let rest = read_whole(alloc, &mut files, 9)?;
        assert_eq!(rt; rest.as_slice(), b"t".as_slice());
    }
    assert_eq!(rt; files.faults(), 0);
    Ok(())
}

// A writer that takes at most three bytes at a time, and fails when it has taken so many.
#[derive(Drop)]
struct Few<'a> {
    left: usize,
    taken: &'a mut Vec<u8>,
}

impl Write for Few<'_> {
    fn write(&mut self, piece: &[u8]) -> io::Result<usize> {
        let count = piece.len().min(self.left).min(3);
        if count == 0 && !piece.is_empty() {
            return Err(ErrorKind::Other.into());
        }
        self.taken.extend_from_slice(&piece[..count])?;
        self.left -= count;
        Ok(count)
    }

    fn flush(&mut self) -> io::Result<()> {
        Ok(())
    }
}

// What is kept is handed on at the end, up to the byte at which the writer fails.
#[test]
fn writers(rt: HostRuntime) -> Result<(), Fail> {
    let run = b"message 1 ignored\nmodel {}\n";
    for left in 0..run.len() + 1 {
        let mut taken = Vec::new(rt.alloc());
        let mut sink = OutSink::over(
            rt.alloc(),
            Few {
                left,
                taken: &mut taken,
            },
        )?;
        put(&mut sink, &run[..18])?;
        put(&mut sink, &run[18..])?;
        let whole = left == run.len();
        assert_eq!(rt; sink.finish().is_ok(), whole, "at byte {left}");
        assert_eq!(rt; sink.faults(), u64::from(!whole), "at byte {left}");
        drop(sink);
        assert_eq!(rt; taken.as_slice(), &run[..left], "at byte {left}");
    }
    Ok(())
}

// More than is kept is handed on before the end.
#[test]
fn much_is_handed_on(rt: HostRuntime) -> Result<(), Fail> {
    let line = vec![in rt.alloc(); b'x'; 1_000]?;
    let mut taken = Vec::new(rt.alloc());
    let mut sink = OutSink::over(
        rt.alloc(),
        Few {
            left: 100_000,
            taken: &mut taken,
        },
    )?;
    for _ in 0..100 {
        put(&mut sink, line.as_slice())?;
    }
    sink.finish()?;
    drop(sink);
    assert_eq!(rt; taken.len(), 100_000);
    Ok(())
}

#[test]
fn values(rt: HostRuntime) -> Result<(), Fail> {
    let alloc = rt.alloc();
    let source = "{\"a\":[1,{\"b\":\"x/y\"}],\"c\":null}";
    let tree = Value::from_str(alloc, source)?;
    let made = from_json(alloc, &tree)?;
    assert_eq!(rt; json_text(alloc, &copy(alloc, &made)?)?.as_str(), source);
    let mut out = Text::new(alloc);
    write_quoted(&mut out, "q")?;
    write_quoted(&mut out, "a\"\n\u{1f}\u{e9}")?;
    write_json(&mut out, &Data::Bool(true))?;
    assert_eq!(rt; out.as_str(), "\"q\"\"a\\\"\\n\\u001f\u{e9}\"true");
    match get(&made, "a.1.b") {
        Some(found) => assert_eq!(rt; text_of(alloc, found)?.as_str(), "x/y"),
        None => assert!(rt; false, "nothing is found"),
    }
    assert_eq!(rt; whole_text("-012"), Some(-12));
    Ok(())
}

#[test]
fn layers_and_lines(rt: HostRuntime) -> Result<(), Fail> {
    let alloc = rt.alloc();
    let mut members = Members::new(alloc);
    members.push(Text::from_str(alloc, "k")?, Data::Whole(5))?;
    let message = Data::Map(members);
    let mut layer = Layer::new(alloc);
    assert!(rt; layer.take(&message)?);
    assert!(rt; !layer.take(&Data::Null)?);
    assert!(rt; !layer.command(&Data::Null)?);
    match layer.get("k", 1) {
        Some(Data::Whole(number)) => assert_eq!(rt; *number, 5),
        _ => assert!(rt; false, "another value"),
    }
    let mut out = MemSink::new(alloc);
    put_line(
        alloc,
        &Line::Message {
            value: message,
            ignored: true,
        },
        &mut out,
    )?;
    assert_eq!(rt; out.bytes(), b"message {\"k\":5} ignored\n".as_slice());
    Ok(())
}
