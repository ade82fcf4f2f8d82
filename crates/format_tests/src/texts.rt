//! Matrix files are read and written.
use mm_text::{Cells, LoadErr, read_matrix, write_matrix};
use std::test::Fail;
use store_io::MemStore;

const TEXT: &[u8; 60] = b"%%MatrixMarket matrix array integer general\n3 2\n1\n2\n3\n4\n5\n6\n";

const ENDS: &[u8; 76] =
    b"%%MatrixMarket matrix array integer general\n1 4\n-2147483648\n2147483647\n0\n-1\n";

#[test]
fn what_was_read_is_written_again(rt: HostRuntime) -> Result<(), Fail> {
    let alloc = rt.alloc();
    let mut store = MemStore::new(alloc, 4096, 4)?;
    assert!(rt; store.put("a", TEXT));
    let whole = read_matrix(alloc, &mut store, "a")?;
    assert_eq!(rt; whole.rows(), 3);
    assert_eq!(rt; whole.columns(), 2);
    assert_eq!(rt; whole.words.as_slice(), [1, 2, 3, 4, 5, 6].as_slice());
    write_matrix(&mut store, "b", &whole)?;
    assert_eq!(rt; store.file("b"), Some(TEXT.as_slice()));
    Ok(())
}

#[test]
fn values_at_their_ends(rt: HostRuntime) -> Result<(), Fail> {
    let alloc = rt.alloc();
    let mut store = MemStore::new(alloc, 4096, 4)?;
    let text =
        b"%%MatrixMarket matrix array integer general\n1 4\n-2147483648\n2147483647\n0\n-1\n";
    assert!(rt; store.put("a", text));
    let whole = read_matrix(alloc, &mut store, "a")?;
    assert_eq!(rt;
        whole.words.as_slice(),
        [-2147483648, 2147483647, 0, -1].as_slice()
    );
    write_matrix(&mut store, "b", &whole)?;
    assert_eq!(rt; store.file("b"), Some(ENDS.as_slice()));
    Ok(())
}

#[test]
fn a_file_that_is_not_there(rt: HostRuntime) -> Result<(), Fail> {
    let alloc = rt.alloc();
    let mut store = MemStore::new(alloc, 4096, 4)?;
    assert_eq!(rt;
        read_matrix(alloc, &mut store, "a").err(),
        Some(LoadErr::Missing)
    );
    Ok(())
}
