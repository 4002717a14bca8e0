use stamp_source::StampSource;
use std::alloc::{AllocError, Global};

#[test]
fn each_number_is_drawn_once(rt: HostRuntime) {
    assert!(rt; drawn(rt.alloc()) == Ok((5, 6, 7, 0)));
}

// What one pass draws of a source that begins at 5, and how many numbers it has left then.
fn drawn(alloc: Global) -> Result<(u64, u64, u64, u64), AllocError> {
    let (source, mut passes) = StampSource::new(alloc, 5, 3, 1)?;
    let pass = &mut passes[0];
    let first = source.draw(pass);
    let second = source.draw(pass);
    let third = source.draw(pass);
    let left = pass.left();
    source.close(passes);
    Ok((first, second, third, left))
}
