//! Configurations whose names are not looked at yet.

/// A rewrite, with texts in the places of names.
#[derive(Drop)]
pub enum DraftRewrite {
    This,
    Computed(String),
    TupleTo { tupleset: String, relation: String },
    Union(Vec<DraftRewrite>),
    Intersection(Vec<DraftRewrite>),
    Exclusion(Box<DraftRewrite>, Box<DraftRewrite>),
}

/// A relation, with texts in the places of names.
#[derive(Drop)]
pub struct DraftRelation {
    pub namespace: String,
    pub relation: String,
    pub types: Vec<String>,
    pub rewrite: DraftRewrite,
    pub indexed: bool,
}

/// A configuration, with texts in the places of names.
#[derive(Drop)]
pub struct Draft {
    pub namespaces: Vec<String>,
    pub relations: Vec<DraftRelation>,
}
