//! Topologies by their letters, and their edges in sending order.
use route_tree::{Top, route};
use std::test::Fail;

#[test]
fn letters_digits_and_a_blank(rt: HostRuntime) {
    let rows = [
        ('I', 'i', Top::I),
        ('D', 'd', Top::D),
        ('S', 's', Top::S),
        ('H', 'h', Top::H),
        ('F', 'f', Top::F),
        ('M', 'm', Top::M),
        ('T', 't', Top::T(2)),
        ('1', '1', Top::T(1)),
        ('2', '2', Top::T(2)),
        ('9', '9', Top::T(9)),
        (' ', ' ', Top::H),
    ];
    for (upper, lower, want) in rows {
        assert_eq!(rt; Top::read(upper), Some(want));
        assert_eq!(rt; Top::read(lower), Some(want));
    }
    for c in ['0', 'x', 'X', '\0', '\t', '-', ':', 'G', 'é', '١'] {
        assert_eq!(rt; Top::read(c), None);
    }
}

// Five members, the source at position 3.
#[test]
fn the_edges_of_each_letter(rt: HostRuntime) -> Result<(), Fail> {
    let rows = [
        (Top::I, [(3, 4), (4, 0), (0, 1), (1, 2)]),
        (Top::T(1), [(3, 4), (4, 0), (0, 1), (1, 2)]),
        (Top::D, [(3, 2), (2, 1), (1, 0), (0, 4)]),
        (Top::S, [(3, 4), (4, 0), (3, 2), (2, 1)]),
        (Top::M, [(3, 4), (4, 0), (3, 1), (1, 2)]),
        (Top::H, [(3, 4), (3, 0), (4, 1), (3, 2)]),
        (Top::F, [(3, 4), (3, 0), (3, 1), (3, 2)]),
        (Top::T(2), [(3, 4), (3, 0), (4, 1), (4, 2)]),
        (Top::T(3), [(3, 4), (3, 0), (3, 1), (4, 2)]),
    ];
    for (top, want) in rows {
        assert!(rt; matches!(top, Top::T(1..=9)) || !matches!(top, Top::T(_)));
        let edges = route(rt.alloc(), top, 5, 3)?;
        assert_eq!(rt; edges.as_slice(), want.as_slice());
    }
    let alone = route(rt.alloc(), Top::S, 1, 0)?;
    assert_eq!(rt; alone.len(), 0);
    // half of an even number of members
    let even: [(Top, u32, u32, &[(u32, u32)]); 5] = [
        (Top::S, 2, 0, &[(0, 1)]),
        (Top::S, 4, 1, &[(1, 2), (2, 3), (1, 0)]),
        (Top::S, 6, 0, &[(0, 1), (1, 2), (2, 3), (0, 5), (5, 4)]),
        (Top::M, 4, 1, &[(1, 2), (2, 3), (1, 0)]),
        (Top::M, 6, 0, &[(0, 1), (1, 2), (2, 3), (0, 4), (4, 5)]),
    ];
    for (top, members, source, want) in even {
        assert!(rt; source < members && members <= 64 && !matches!(top, Top::T(_)));
        let edges = route(rt.alloc(), top, members, source)?;
        assert_eq!(rt; edges.as_slice(), want, "{members}");
    }
    Ok(())
}
