use crate::*;
use std::test::Fail;

#[test]
fn lists_of_items(rt: HostRuntime) -> Result<(), Fail> {
    let mut list = ListOf::new(rt.alloc());
    list.push(3_u32)?;
    list.push(5)?;
    assert_eq!(rt; list.len(), 2);
    assert_eq!(rt; list.get(1), Some(&5));
    assert_eq!(rt; list.get(2), None);
    let twin = list.copy(rt.alloc())?;
    assert!(rt; twin == list);
    list.clear();
    assert_eq!(rt; list.len(), 0);
    assert_eq!(rt; twin.into_vec().len(), 2);
    Ok(())
}

#[test]
fn reads_that_fail(rt: HostRuntime) -> Result<(), Fail> {
    let bytes = ListOf::from_vec(b"abc".to_vec(rt.alloc())?);
    let fail = ListOf::from_vec(vec![in rt.alloc(); 2_u32]?);
    let mut source = MemorySource::new(bytes, fail);
    let mut buf = [0_u8; 2];
    assert_eq!(rt; source.read(&mut buf), Ok(2));
    assert_eq!(rt; source.read(&mut buf), Err(Failed));
    assert_eq!(rt; source.read(&mut buf), Ok(1));
    assert_eq!(rt; source.read(&mut buf), Ok(0));
    Ok(())
}

#[test]
fn writes_into_a_room(rt: HostRuntime) -> Result<(), Fail> {
    let fail = ListOf::from_vec(vec![in rt.alloc(); 1_u32]?);
    let mut sink = MemorySink::new(rt.alloc(), 4, fail)?;
    assert_eq!(rt; sink.write(b"abc"), Err(Failed));
    assert_eq!(rt; write_all(&mut sink, b"abc"), Ok(()));
    assert_eq!(rt; sink.write(b"de"), Ok(1));
    assert_eq!(rt; sink.write(b""), Ok(0));
    assert_eq!(rt; write_all(&mut sink, b"e"), Err(Failed));
    assert_eq!(rt; sink.bytes(), b"abcd".as_slice());
    Ok(())
}

#[test]
fn bytes_of_a_token(rt: HostRuntime) {
    let table = token_table();
    assert!(rt; table.has(b'a'));
    assert!(rt; table.has(b'~'));
    assert!(rt; !table.has(b'"'));
}
