use crate::giving::{Given, world_of};
use crate::telling::told;
use std::test::Fail;

// Facts of a page, and what is known afterwards.
struct Row {
    name: &'static str,
    given: &'static [Given],
    told: &'static str,
}

const ROWS: &[Row] = &[
    Row {
        name: "nothing",
        given: &[],
        told: "",
    },
    Row {
        name: "a url",
        given: &[Given::Url("https://A.example/#f", Some("https://a.example/#f"))],
        told: "url https://A.example/#f; at https://a.example/#f",
    },
    Row {
        name: "a malformed url behind another",
        given: &[
            Given::Url("https://a.example/", Some("https://a.example/")),
            Given::Url("nowhere", None),
        ],
        told: "url nowhere",
    },
    Row {
        name: "a referrer, which leaves the url",
        given: &[
            Given::Url("https://a.example/", Some("https://a.example/")),
            Given::Referrer("https://b.example/", Some("https://b.example/")),
        ],
        told: "url https://a.example/; at https://a.example/; referrer https://b.example/; \
            at https://b.example/",
    },
    Row {
        name: "a malformed referrer",
        given: &[
            Given::Referrer("https://b.example/", Some("https://b.example/")),
            Given::Referrer("nowhere", None),
        ],
        told: "referrer nowhere",
    },
    Row {
        name: "a title, which leaves the addresses",
        given: &[
            Given::Url("https://a.example/", Some("https://a.example/")),
            Given::Title("Cart"),
            Given::Charset("UTF-8"),
            Given::Region("DE-BY"),
        ],
        told: "url https://a.example/; at https://a.example/; title Cart; charset UTF-8; \
            region DE-BY",
    },
    Row {
        name: "a second title",
        given: &[Given::Title("Cart"), Given::Title("Thanks")],
        told: "title Thanks",
    },
    Row {
        name: "a title that is empty",
        given: &[Given::Title("Cart"), Given::Title("")],
        told: "",
    },
    Row {
        name: "cookies",
        given: &[Given::Cookie("a", &["1", "2"]), Given::Cookie("b", &["3"])],
        told: "cookie a 1 2; cookie b 3",
    },
    Row {
        name: "a cookie set anew",
        given: &[
            Given::Cookie("a", &["1", "2"]),
            Given::Cookie("b", &["3"]),
            Given::Cookie("a", &["4"]),
        ],
        told: "cookie a 4; cookie b 3",
    },
    Row {
        name: "a cookie without a value",
        given: &[Given::Cookie("a", &["1"]), Given::Cookie("a", &[])],
        told: "cookie a",
    },
    Row {
        name: "the time",
        given: &[Given::Time(5), Given::Time(7)],
        told: "time 7",
    },
    Row {
        name: "the container's ids",
        given: &[Given::Ids("GTM-X", "12")],
        told: "public GTM-X; version 12",
    },
];

#[test]
fn facts_are_known(rt: HostRuntime) -> Result<(), Fail> {
    for row in ROWS {
        let world = world_of(rt.alloc(), row.given)?;
        let told = told(rt.alloc(), &world)?;
        let name = row.name;
        assert_eq!(rt; told.as_str(), row.told, "{name}");
    }
    Ok(())
}
