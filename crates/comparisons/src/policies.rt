//! What histories are about.

/// The relations that are asked about, the kinds of tuples, and the configuration, where it is not drawn anew.
#[derive(Clone, Copy)]
pub(crate) struct Policy {
    pub(crate) name: &'static str,
    pub(crate) config: Option<&'static str>,
    pub(crate) kinds: &'static str,
    pub(crate) asked: &'static str,
}

/// Groups and documents, under random configurations.
pub(crate) const DRAWN: Policy = Policy {
    name: "drawn",
    config: None,
    kinds: "group#member@user group#member@user group#member@user group#admin@user group#admin@user \
group#member@group#member group#member@group#member group#member@group#admin group#admin@group#admin \
group#admin@group#member doc#parent@doc doc#parent@doc doc#banned@user doc#banned@group#member doc#editor@user \
doc#editor@group#member doc#editor@group#admin doc#viewer@user doc#viewer@group#member doc#viewer@doc#editor \
doc#guest@user doc#guest@group#admin",
    asked: "group#member group#admin doc#banned doc#editor doc#guest doc#viewer",
};

/// Groups of groups, and those whom a group lets in though another shuts them out: levels 0 to 3.
pub(crate) const GROUPS: Policy = Policy {
    name: "groups",
    config: Some(
        r#"{"namespaces":{"user":{},"group":{
"member":{"types":["user","group#member","group#active"]},
"banned":{"types":["user","group#banned"]},
"active":{"types":[],"rewrite":{"exclusion":[{"computed":"member"},{"computed":"banned"}]}},
"trusted":{"types":["user","group#active"]},
"left":{"types":["user","group#left"],"rewrite":{"exclusion":["this",{"computed":"active"}]}},
"rest":{"types":["group#left"],"rewrite":{"exclusion":[{"union":[{"computed":"trusted"},"this"]},{"computed":"left"}]}}}}}"#,
    ),
    kinds: "group#member@user group#member@user group#member@group#member group#member@group#active group#banned@user \
group#banned@group#banned group#trusted@user group#trusted@group#active group#left@user group#left@group#left \
group#rest@group#left",
    asked: "group#member group#banned group#active group#trusted group#left group#rest",
};

/// Cycles through unions and intersections, and through the objects above.
pub(crate) const CYCLES: Policy = Policy {
    name: "cycles",
    config: Some(
        r#"{"namespaces":{"user":{},"node":{
"up":{"types":["node"]},
"one":{"types":["user","node#two","node#three"]},
"two":{"types":["user","node#three"],"rewrite":{"union":["this",{"intersection":[{"computed":"one"},{"tuple_to":{"tupleset":"up","relation":"two"}}]}]}},
"three":{"types":["user","node#one"],"rewrite":{"intersection":[{"union":["this",{"tuple_to":{"tupleset":"up","relation":"three"}}]},{"union":[{"computed":"two"},{"computed":"one"}]}]}},
"four":{"types":[],"rewrite":{"exclusion":[{"union":[{"computed":"two"},{"tuple_to":{"tupleset":"up","relation":"four"}}]},{"intersection":[{"computed":"three"},{"tuple_to":{"tupleset":"up","relation":"one"}}]}]}}}}}"#,
    ),
    kinds: "node#up@node node#up@node node#one@user node#one@user node#one@node#two node#one@node#three node#two@user \
node#two@node#three node#three@user node#three@user node#three@node#one",
    asked: "node#one node#two node#three node#four",
};

/// Exclusions in exclusions, with usersets on either side.
pub(crate) const NESTED: Policy = Policy {
    name: "nested",
    config: Some(
        r#"{"namespaces":{"user":{},"room":{
"in":{"types":["room"]},
"key":{"types":["user","room#key"]},
"shut":{"types":["user","room#key"]},
"open":{"types":[],"rewrite":{"exclusion":[{"computed":"key"},{"exclusion":[{"computed":"shut"},{"exclusion":[{"tuple_to":{"tupleset":"in","relation":"key"}},{"tuple_to":{"tupleset":"in","relation":"shut"}}]}]}]}},
"guest":{"types":["user","room#open"],"rewrite":{"exclusion":["this",{"exclusion":[{"computed":"open"},{"computed":"shut"}]}]}},
"seen":{"types":["room#guest"],"rewrite":{"union":[{"exclusion":["this",{"intersection":[{"computed":"guest"},{"computed":"shut"}]}]},{"tuple_to":{"tupleset":"in","relation":"seen"}}]}}}}}"#,
    ),
    kinds: "room#in@room room#key@user room#key@user room#key@room#key room#shut@user room#shut@room#key room#guest@user \
room#guest@room#open room#seen@room#guest room#seen@room#guest",
    asked: "room#key room#shut room#open room#guest room#seen",
};
