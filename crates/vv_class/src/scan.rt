ghost use Rattle.std.specs.Prelude.{◌≡◌, ◌<◌, ◌≤◌, ◌^◌, IfSome};
ghost use Rattle.vv_class.specs.Scan.{start_of, continues_number, with_level, with_category, kept, closed, more_level, more_category, step_of, is_whole};

/// What may come next in a half of the text of a class.
#[derive(Clone, Copy, Debug, PartialEq, Eq)]
pub enum Next {
    /// The first digit of a level.
    Level,
    /// A further digit of the level, or an opening brace.
    MoreLevel,
    /// The first digit of the first category, or a closing brace.
    FirstCategory,
    /// The first digit of a category, after a comma.
    Category,
    /// A further digit of the category, a comma, or a closing brace.
    MoreCategory,
    /// Nothing.
    End,
}

/// How far a half of the text of a class is read.
#[derive(Clone, Copy, Debug, PartialEq, Eq)]
pub struct Half {
    pub next: Next,
    /// The number that is being read.
    pub number: u8,
    /// The least category that may come.
    pub least: u8,
    pub level: u8,
    pub cats: u64,
}

/// Nothing is read.
#[tactic(auto, unfolding(crate::specs::Scan::start_of))]
pub fn start() -> Half
    ensures value { result ≡ start_of }
    ensures room { result.cats < 2 ^ result.least }
{
    Half {
        next: Next::Level,
        number: 0,
        least: 0,
        level: 0,
        cats: 0,
    }
}

impl Half {
    /// Whether it is read to its end.
    pub fn is_whole(&self) -> bool
        ensures { result ≡ is_whole self.now }
    {
        matches!(self.next, Next::End)
    }

    /// Reads one more byte; `None` where no half goes on so.
    #[tactic(auto, unfolding(crate::specs::Scan::step_of))]
    pub fn step(&self, b: u8) -> Option<Half>
        requires { self.now.cats < 2 ^ self.now.least }
        ensures value { result ≡ step_of self.now b }
        ensures room { IfSome result (λ next. next.cats < 2 ^ next.least) }
    {
        match self.next {
            Next::Level if b.is_ascii_digit() => self.with_level(u32::from(b - b'0')),
            Next::MoreLevel => self.more_level(b),
            Next::FirstCategory if b == b'}' => Some(self.closed()),
            Next::FirstCategory | Next::Category if b.is_ascii_digit() => {
                self.with_category(u32::from(b - b'0'))
            }
            Next::MoreCategory => self.more_category(b),
            _ => None,
        }
    }

    #[tactic(auto, unfolding(crate::specs::Scan::more_level))]
    fn more_level(&self, b: u8) -> Option<Half>
        requires { self.now.cats < 2 ^ self.now.least }
        ensures value { result ≡ more_level self.now b }
        ensures room { IfSome result (λ next. next.cats < 2 ^ next.least) }
    {
        if b == b'{' {
            return Some(Half {
                next: Next::FirstCategory,
                level: self.number,
                number: 0,
                ..*self
            });
        }
        if self.goes_on(b) {
            self.with_level(10 * u32::from(self.number) + u32::from(b - b'0'))
        } else {
            None
        }
    }

    #[tactic(auto, unfolding(crate::specs::Scan::more_category))]
    fn more_category(&self, b: u8) -> Option<Half>
        requires { self.now.cats < 2 ^ self.now.least }
        ensures value { result ≡ more_category self.now b }
        ensures room { IfSome result (λ next. next.cats < 2 ^ next.least) }
    {
        if b == b'}' {
            if self.least <= self.number && self.number <= 63 {
                return Some(self.kept().closed());
            }
            return None;
        }
        if b == b',' {
            if self.least <= self.number && self.number < 63 {
                return Some(self.kept());
            }
            return None;
        }
        if self.goes_on(b) {
            self.with_category(10 * u32::from(self.number) + u32::from(b - b'0'))
        } else {
            None
        }
    }

    /// A digit goes on with a number that is not `0`.
    fn goes_on(&self, b: u8) -> bool
        ensures { result ≡ continues_number self.now b }
    {
        b.is_ascii_digit() && 1 <= self.number
    }

    fn with_level(&self, n: u32) -> Option<Half>
        requires { self.now.cats < 2 ^ self.now.least }
        ensures value { result ≡ with_level self.now n }
        ensures room { IfSome result (λ next. next.cats < 2 ^ next.least) }
    {
        if n <= 255 {
            Some(Half {
                next: Next::MoreLevel,
                number: n as u8,
                ..*self
            })
        } else {
            None
        }
    }

    fn with_category(&self, n: u32) -> Option<Half>
        requires small { n < 10000 }
        requires room { self.now.cats < 2 ^ self.now.least }
        ensures value { result ≡ with_category self.now n }
        ensures room { IfSome result (λ next. next.cats < 2 ^ next.least) }
    {
        let least = u32::from(self.least);
        if least <= n && n <= 63 || 1 <= n && n <= 6 && least <= 10 * n + 9 && least <= 63 {
            Some(Half {
                next: Next::MoreCategory,
                number: n as u8,
                ..*self
            })
        } else {
            None
        }
    }

    fn kept(&self) -> Half
        requires least { self.now.least ≤ self.now.number }
        requires fits { self.now.number < 64 }
        requires room { self.now.cats < 2 ^ self.now.least }
        ensures value { result ≡ kept self.now }
        ensures room { result.cats < 2 ^ result.least }
    {
        Half {
            next: Next::Category,
            least: self.number + 1,
            cats: self.cats + (1u64 << u32::from(self.number)),
            number: 0,
            ..*self
        }
    }

    fn closed(&self) -> Half
        requires { self.now.cats < 2 ^ self.now.least }
        ensures value { result ≡ closed self.now }
        ensures room { result.cats < 2 ^ result.least }
    {
        Half {
            next: Next::End,
            ..*self
        }
    }
}
