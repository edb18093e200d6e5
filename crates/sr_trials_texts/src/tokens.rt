//! The tokens of a source, at a source worked out by hand.
use sr_token::token::TokenKind;
use sr_token::tokens::Tokens;

fn is_next(tokens: &mut Tokens, kind: TokenKind, from: usize, to: usize) -> bool {
    match tokens.next() {
        Ok(Some(token)) => token.kind == kind && token.from == from && token.to == to,
        _ => false,
    }
}

#[test]
fn a_source_has_words_marks_and_texts(rt: HostRuntime) {
    let mut tokens = Tokens::over("a<='b''c'");
    assert!(rt; is_next(&mut tokens, TokenKind::Word, 0, 1));
    assert!(rt; is_next(&mut tokens, TokenKind::Mark, 1, 3));
    assert!(rt; is_next(&mut tokens, TokenKind::Quoted, 3, 9));
    assert!(rt; matches!(tokens.next(), Ok(None)));
}
