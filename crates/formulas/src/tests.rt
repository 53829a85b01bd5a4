// Values made, printed and read back: refusals, the two ends of the widths, words that spell no value, and arguments out of
// bounds.
use super::models::Models;
use domain::{Domain, Refusal};
use families::{Family, mask};
use rows::Row;
use std::mem::size_of;
use std::test::Fail;

#[test]
fn a_refused_make_leaves_its_place(rt: HostRuntime) -> Result<(), Fail> {
    let mut place = Models::never(0);
    Models::make(3, Some(&[&[0, 2], &[1]]), &mut place)?;
    assert_eq!(rt;
        Models::make(9, None, &mut place).map_err(Refusal::number),
        Err(14)
    );
    assert_eq!(rt;
        Models::make(9, Some(&[&[200]]), &mut place).map_err(Refusal::number),
        Err(14)
    );
    assert_eq!(rt;
        Models::make(3, Some(&[&[1], &[0, 3]]), &mut place).map_err(Refusal::number),
        Err(7)
    );
    assert_eq!(rt;
        Models::make(0, Some(&[&[0]]), &mut place).map_err(Refusal::number),
        Err(7)
    );
    assert_eq!(rt; place.to_string(rt.alloc())?.as_str(), "{1,02,012}");
    assert!(rt; Models::make(2, None, &mut place).is_ok());
    assert_eq!(rt; place.to_string(rt.alloc())?.as_str(), "never");
    assert_eq!(rt; place.width(), 2);
    Ok(())
}

#[test]
fn the_narrowest_and_the_widest(rt: HostRuntime) -> Result<(), Fail> {
    let narrow = Models::listed(0, Some(&[]))?;
    assert_eq!(rt; narrow.to_string(rt.alloc())?.as_str(), "{e}");
    assert_eq!(rt; narrow.enter(8).rank(), 256);
    assert!(rt; !narrow.enter(8).ground(7));
    let wide = Models::listed(
        8,
        Some(&[&[0, 1, 2, 3, 4, 5, 6], &[7, 7, 7, 7, 7, 7, 7, 7, 7]]),
    )?;
    assert_eq!(rt;
        wide.to_string(rt.alloc())?.as_str(),
        "{0123456,7,01234567}"
    );
    assert!(rt; wide.apart(0, 7));
    assert!(rt; !wide.apart(0, 6));
    assert_eq!(rt;
        wide.tie(7, &[0]).to_string(rt.alloc())?.as_str(),
        "{01234567}"
    );
    assert_eq!(rt; wide.rank(), 3);
    assert_eq!(rt; size_of::<Models>(), 40);
    Ok(())
}

#[test]
fn a_clause_that_builds(rt: HostRuntime) -> Result<(), Fail> {
    let row = Models::listed(1, Some(&[&[]]))?.enter(3);
    assert_eq!(rt;
        row.to_string(rt.alloc())?.as_str(),
        "{e,0,1,01,2,02,12,012}"
    );
    let built = row.tie(0, &[1, 2]);
    assert_eq!(rt; built.to_string(rt.alloc())?.as_str(), "{e,1,2,012}");
    assert!(rt; !built.ground(1));
    let called = built.back(&[0], &Models::listed(1, Some(&[]))?);
    assert_eq!(rt; called.to_string(rt.alloc())?.as_str(), "{012}");
    assert!(rt; called.ground(1));
    assert_eq!(rt;
        built
            .back(&[0], &Models::never(1))
            .to_string(rt.alloc())?
            .as_str(),
        "never"
    );
    assert_eq!(rt;
        built.view(&[2, 0]).to_string(rt.alloc())?.as_str(),
        "{e,0,01}"
    );
    assert_eq!(rt;
        called.join(&built).to_string(rt.alloc())?.as_str(),
        "{e,1,2,012}"
    );
    assert!(rt; called.below(&built) && !built.below(&called));
    Ok(())
}

#[test]
fn any_words_read_as_a_value(rt: HostRuntime) -> Result<(), Fail> {
    let mut map = Family::new();
    map.insert(0b0001);
    map.insert(0b0111);
    let headless = Models {
        row: Row::new(2, map),
    };
    assert_eq!(rt; headless.to_string(rt.alloc())?.as_str(), "never");
    assert_eq!(rt; headless.rank(), 0);
    assert!(rt; headless.below(&Models::never(2)));
    let whole = Models {
        row: Row::new(3, map),
    };
    assert_eq!(rt; whole.to_string(rt.alloc())?.as_str(), "{0,012}");
    let long = Models {
        row: Row::new(1, map),
    };
    assert_eq!(rt; long.to_string(rt.alloc())?.as_str(), "{0}");
    map.insert(mask::all(8));
    let boundless = Models {
        row: Row::new(200, map),
    };
    assert_eq!(rt; boundless.width(), 8);
    assert_eq!(rt;
        boundless.to_string(rt.alloc())?.as_str(),
        "{0,012,01234567}"
    );
    Ok(())
}

#[test]
fn arguments_out_of_bounds(rt: HostRuntime) -> Result<(), Fail> {
    let a = Models::listed(3, Some(&[&[0, 2], &[1]]))?;
    assert_eq!(rt;
        a.tie(255, &[9, 200]).to_string(rt.alloc())?.as_str(),
        "{1,02,012}"
    );
    assert_eq!(rt;
        a.tie(1, &[0, 3]).to_string(rt.alloc())?.as_str(),
        "{1,02,012}"
    );
    assert_eq!(rt;
        a.view(&[1, 3]).to_string(rt.alloc())?.as_str(),
        "{e,0,1,01}"
    );
    assert_eq!(rt;
        a.view(&[1, 1, 0, 0, 0, 0, 0, 0, 2, 2])
            .to_string(rt.alloc())?
            .as_str(),
        "{01,234567,01234567}"
    );
    assert_eq!(rt; a.enter(1).to_string(rt.alloc())?.as_str(), "{1,02,012}");
    assert_eq!(rt; a.enter(255).width(), 8);
    assert_eq!(rt;
        a.back(&[0, 3], &Models::never(2))
            .to_string(rt.alloc())?
            .as_str(),
        "{1,02,012}"
    );
    assert_eq!(rt;
        a.back(&[0, 1], &Models::never(1))
            .to_string(rt.alloc())?
            .as_str(),
        "{1,02,012}"
    );
    assert_eq!(rt;
        a.back(&[0, 1], &Models::never(2))
            .to_string(rt.alloc())?
            .as_str(),
        "never"
    );
    assert_eq!(rt;
        a.join(&Models::never(200)).to_string(rt.alloc())?.as_str(),
        "{1,02,012}"
    );
    assert!(rt; a.ground(200));
    assert!(rt; a.apart(200, 1));
    Ok(())
}
