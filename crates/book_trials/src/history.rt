//! The worked history of the two customers, request by request. The texts of scenarios have its answers.

/// Parts of the history, in turn.
#[derive(Clone, Copy)]
pub enum History {
    /// Two items and three bins.
    GoodsAndBins,
    /// Two deliveries, and what two customers order.
    TwoCustomers,
    /// Both lots that the first customer has are picked.
    Picked,
    /// They are shipped, and one of them is recalled.
    ShippedAndRecalled,
}

impl History {
    /// The requests, a line each.
    pub fn text(self) -> &'static str {
        match self {
            History::GoodsAndBins => GOODS_AND_BINS,
            History::TwoCustomers => TWO_CUSTOMERS,
            History::Picked => PICKED,
            History::ShippedAndRecalled => SHIPPED_AND_RECALLED,
        }
    }
}

static GOODS_AND_BINS: &str =
    r#"POST /items {"key":"K-1","gtin":"09506000134352","name":"Oat drink"}
POST /items {"key":"K-2","gtin":"04012345000016","name":"Rye bread"}
POST /bins {"key":"K-3","bin":"A-01","kind":"STORE"}
POST /bins {"key":"K-4","bin":"A-02","kind":"STORE"}
POST /bins {"key":"K-5","bin":"Q-01","kind":"HOLD"}"#;

static TWO_CUSTOMERS: &str =
    r#"POST /receipts {"delivery":"D-1","line":1,"label":"01095060001343521726063010L1","bin":"A-01","qty":10}
POST /receipts {"delivery":"D-1","line":2,"label":"01095060001343521726053110L2","bin":"A-01","qty":10}
POST /orders {"key":"K-8","order":"S-1","customer":"Corner Shop","lines":[{"gtin":"09506000134352","qty":12}]}
POST /orders {"key":"K-9","order":"S-2","customer":"Harbour Cafe","lines":[{"gtin":"09506000134352","qty":12}]}
POST /receipts {"delivery":"D-2","line":1,"label":"01095060001343521726051010L0","bin":"A-01","qty":5}"#;

static PICKED: &str =
    r#"POST /picks {"key":"K-11","order":"S-1","gtin":"09506000134352","lot":"L0","bin":"A-01","qty":5}
POST /picks {"key":"K-12","order":"S-1","gtin":"09506000134352","lot":"L2","bin":"A-01","qty":7}"#;

static SHIPPED_AND_RECALLED: &str = r#"POST /shipments {"key":"K-13","order":"S-1"}
POST /recalls {"key":"K-14","gtin":"09506000134352","lot":"L2"}"#;
