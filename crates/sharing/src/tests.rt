// Values made, printed and read back: refusals, the two ends of the widths, unions of more than two groups, words that
// spell no value, and arguments out of bounds.
use super::groups::Groups;
use domain::{Domain, Refusal};
use families::{Family, mask};
use rows::Row;
use std::mem::size_of;
use std::test::Fail;

#[test]
fn a_refused_make_leaves_its_place(rt: HostRuntime) -> Result<(), Fail> {
    let mut place = Groups::never(0);
    Groups::make(3, Some(&[&[0, 2], &[1]]), &mut place)?;
    assert_eq!(rt;
        Groups::make(9, None, &mut place).map_err(Refusal::number),
        Err(14)
    );
    assert_eq!(rt;
        Groups::make(9, Some(&[&[200]]), &mut place).map_err(Refusal::number),
        Err(14)
    );
    assert_eq!(rt;
        Groups::make(3, Some(&[&[1], &[0, 3]]), &mut place).map_err(Refusal::number),
        Err(7)
    );
    assert_eq!(rt;
        Groups::make(0, Some(&[&[0]]), &mut place).map_err(Refusal::number),
        Err(7)
    );
    assert_eq!(rt; place.to_string(rt.alloc())?.as_str(), "{e,1,02}");
    assert!(rt; Groups::make(2, None, &mut place).is_ok());
    assert_eq!(rt; place.to_string(rt.alloc())?.as_str(), "never");
    assert_eq!(rt; place.width(), 2);
    Ok(())
}

#[test]
fn the_narrowest_and_the_widest(rt: HostRuntime) -> Result<(), Fail> {
    let narrow = Groups::listed(0, Some(&[]))?;
    assert_eq!(rt; narrow.to_string(rt.alloc())?.as_str(), "{e}");
    assert_eq!(rt;
        narrow.enter(8).to_string(rt.alloc())?.as_str(),
        "{e,0,1,2,3,4,5,6,7}"
    );
    let wide = Groups::listed(
        8,
        Some(&[&[0, 1, 2, 3, 4, 5, 6], &[7, 7, 7, 7, 7, 7, 7, 7, 7]]),
    )?;
    assert_eq!(rt; wide.to_string(rt.alloc())?.as_str(), "{e,0123456,7}");
    assert_eq!(rt;
        wide.tie(7, &[0]).to_string(rt.alloc())?.as_str(),
        "{e,01234567}"
    );
    assert_eq!(rt; wide.rank(), 3);
    assert_eq!(rt; size_of::<Groups>(), 40);
    Ok(())
}

#[test]
fn more_than_two_are_joined(rt: HostRuntime) -> Result<(), Fail> {
    let a = Groups::listed(4, Some(&[&[0, 2], &[0, 3], &[1]]))?;
    assert_eq!(rt;
        a.tie(0, &[1]).to_string(rt.alloc())?.as_str(),
        "{e,012,013,0123}"
    );
    let b = Groups::listed(6, Some(&[&[1], &[2, 5]]))?;
    assert_eq!(rt;
        b.back(&[4, 1, 5], &Groups::listed(3, Some(&[&[1, 2]]))?)
            .to_string(rt.alloc())?
            .as_str(),
        "{e,125}"
    );
    assert_eq!(rt;
        b.back(&[4, 1, 5], &Groups::never(3))
            .to_string(rt.alloc())?
            .as_str(),
        "never"
    );
    Ok(())
}

#[test]
fn any_words_read_as_a_value(rt: HostRuntime) -> Result<(), Fail> {
    let mut map = Family::new();
    map.insert(0b0100);
    map.insert(0b1001);
    let headless = Groups {
        row: Row::new(2, map),
    };
    assert_eq!(rt; headless.to_string(rt.alloc())?.as_str(), "never");
    assert_eq!(rt; headless.rank(), 0);
    assert!(rt; headless.below(&Groups::never(2)));
    map.insert(mask::EMPTY);
    let long = Groups {
        row: Row::new(3, map),
    };
    assert_eq!(rt; long.to_string(rt.alloc())?.as_str(), "{e,2}");
    let boundless = Groups {
        row: Row::new(200, map),
    };
    assert_eq!(rt; boundless.width(), 8);
    assert_eq!(rt; boundless.to_string(rt.alloc())?.as_str(), "{e,2,03}");
    Ok(())
}

#[test]
fn arguments_out_of_bounds(rt: HostRuntime) -> Result<(), Fail> {
    let a = Groups::listed(3, Some(&[&[0, 2], &[1]]))?;
    assert_eq!(rt;
        a.tie(255, &[9, 200]).to_string(rt.alloc())?.as_str(),
        "{e,1,02}"
    );
    assert_eq!(rt; a.tie(1, &[7]).to_string(rt.alloc())?.as_str(), "{e,02}");
    assert_eq!(rt;
        a.view(&[1, 1, 200, 0, 1, 1, 1, 1, 2, 2])
            .to_string(rt.alloc())?
            .as_str(),
        "{e,3,014567}"
    );
    assert_eq!(rt; a.enter(1).to_string(rt.alloc())?.as_str(), "{e,1,02}");
    assert_eq!(rt;
        a.enter(255).to_string(rt.alloc())?.as_str(),
        "{e,1,02,3,4,5,6,7}"
    );
    assert_eq!(rt;
        a.back(&[2, 200, 0, 0, 0, 0, 0, 0, 0, 0], &a)
            .to_string(rt.alloc())?
            .as_str(),
        "{e,1}"
    );
    assert_eq!(rt;
        a.join(&Groups::never(200)).to_string(rt.alloc())?.as_str(),
        "{e,1,02}"
    );
    assert!(rt; a.ground(200));
    assert!(rt; a.apart(200, 1));
    Ok(())
}
