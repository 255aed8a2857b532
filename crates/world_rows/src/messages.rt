use crate::giving::{Given, data, world_of};
use crate::telling::told;
use gtm_data::json_text;
use std::test::Fail;

#[test]
fn the_layer_and_the_page_stand_beside_each_other(rt: HostRuntime) -> Result<(), Fail> {
    let alloc = rt.alloc();
    let mut world = world_of(alloc, &[Given::Title("Cart"), Given::Global("a", "1")])?;
    assert!(rt; world.take(&data(alloc, "{\"a\":[1,2]}")?)?);
    assert!(rt; world.command(&data(alloc, "[\"a.push\",3]")?)?);
    assert!(rt; !world.command(&data(alloc, "[\"b.push\",3]")?)?);
    assert!(rt; !world.take(&data(alloc, "5")?)?);
    assert_eq!(rt;
        json_text(alloc, world.model())?.as_str(),
        "{\"a\":[1,2,3]}"
    );
    assert_eq!(rt;
        told(alloc, &world)?.as_str(),
        "title Cart; globals {\"a\":1}"
    );
    assert!(rt; world.layer().get("a.0", 2).is_some());
    Ok(())
}
