//! How many texts of statements the tables have.

// A connection keeps the plans of its last 64 texts: with more in turn nearly each call would be planned again.
#[test]
fn statements_have_at_most_sixty_texts(rt: HostRuntime) {
    let mut texts = Vec::new(rt.alloc());
    let crates: [&[&str]; 3] = [
        tables::goods_texts::TEXTS,
        tables::order_texts::TEXTS,
        tables::history_texts::TEXTS,
    ];
    for list in crates {
        for text in list {
            if !texts.contains(text) {
                assert!(rt; texts.push(*text).is_ok());
            }
        }
    }
    assert!(rt; texts.len() <= 60, "{} texts", texts.len());
}
