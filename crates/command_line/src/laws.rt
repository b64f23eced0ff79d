//! Laws of the command line, over its definition alone. There is nothing to do when they run.

ghost use Rattle.std.specs.Prelude.{◌≡◌, ◌∷◌, [], codes, None, Some};
ghost use Rattle.clap.specs.Words.{Text, all_of, first_of, one_of};
ghost use Rattle.command_line.specs.Arguments.{text_of};
ghost use Rattle.command_line.specs.AskCommand.{ask_name};
ghost use Rattle.command_line.specs.ChangesCommand.{changes_name};
ghost use Rattle.command_line.specs.CheckCommand.{check_name};
ghost use Rattle.command_line.specs.ExplainCommand.{explain_name};
ghost use Rattle.command_line.specs.FetchCommand.{fetch_name};
ghost use Rattle.command_line.specs.PackCommand.{pack_name};
ghost use Rattle.command_line.specs.ProveCommand.{prove_name};
ghost use Rattle.command_line.specs.PublishCommand.{publish_name};
ghost use Rattle.command_line.specs.QueryCommand.{query_name};
ghost use Rattle.command_line.specs.RelayCommand.{relay_name};
ghost use Rattle.command_line.specs.ServeCommand.{serve_name};
ghost use Rattle.command_line.specs.TakenWords.{AreTaken, RefusesBudget, TakesBudget, ask_words, check_words, command_words, fetch_words, query_words, relay_words, serve_words};

/// A law: each command takes words. After the word `--` it takes any texts, and they are the texts that its matches
/// have, in order. So what [`crate::read_words`] promises of words that are taken is no empty promise.
pub fn each_command_takes_words()
    ensures ask { (program query : Text)
        → AreTaken (command_words program ask_name (query ∷ [])) ask_name
        (λ rows. text_of (codes "QUERY") rows ≡ query) }
    ensures publish { (program file : Text)
        → AreTaken (command_words program publish_name (file ∷ [])) publish_name
        (λ rows. text_of (codes "FILE") rows ≡ file) }
    ensures prove { (program file query answer proof : Text)
        → AreTaken (command_words program prove_name (file ∷ query ∷ answer ∷ proof ∷ [])) prove_name (λ rows.
        (text_of (codes "FILE") rows ≡ file) × (text_of (codes "QUERYFILE") rows ≡ query)
        × (text_of (codes "ANSWERFILE") rows ≡ answer) × (text_of (codes "PROOFFILE") rows
        ≡ proof)) }
    ensures check { (program root query answer proof : Text)
        → AreTaken (command_words program check_name (root ∷ query ∷ answer ∷ proof ∷ [])) check_name (λ rows.
        (text_of (codes "ROOT") rows ≡ root) × (text_of (codes "QUERYFILE") rows ≡ query)
        × (text_of (codes "ANSWERFILE") rows ≡ answer) × (text_of (codes "PROOFFILE") rows
        ≡ proof)) }
    ensures fetch { (program root mirror query : Text)
        → AreTaken (command_words program fetch_name (root ∷ mirror ∷ query ∷ [])) fetch_name (λ rows.
        (text_of (codes "ROOT") rows ≡ root) × (text_of (codes "HOST:PORT") rows ≡ mirror)
        × (text_of (codes "QUERY") rows ≡ query) × (first_of (codes "form") rows ≡ None)) }
    ensures pack { (program file pack : Text)
        → AreTaken (command_words program pack_name (file ∷ pack ∷ [])) pack_name (λ rows.
        (text_of (codes "FILE") rows ≡ file) × (text_of (codes "PACK") rows ≡ pack)) }
    ensures query { (program root place query : Text)
        → AreTaken (command_words program query_name (root ∷ place ∷ query ∷ [])) query_name (λ rows.
        (text_of (codes "ROOT") rows ≡ root) × (text_of (codes "PLACE") rows ≡ place)
        × (text_of (codes "QUERY") rows ≡ query) × (first_of (codes "form") rows ≡ None)) }
    ensures relay { (program root mirror : Text)
        → AreTaken (command_words program relay_name (root ∷ mirror ∷ codes "8080" ∷ [])) relay_name (λ rows.
        (text_of (codes "ROOT") rows ≡ root) × (text_of (codes "HOST:PORT") rows ≡ mirror)
        × (one_of (codes "LISTENPORT") rows ≡ Some (codes "8080"))
        × (all_of (codes "fallback") rows ≡ None)) }
    ensures changes { (program file change_file : Text)
        → AreTaken (command_words program changes_name (file ∷ codes "7" ∷ change_file ∷ [])) changes_name (λ rows.
        (text_of (codes "FILE") rows ≡ file) × (one_of (codes "SEQUENCE") rows ≡ Some (codes "7"))
        × (text_of (codes "CHANGEFILE") rows ≡ change_file)) }
    // A flag that isn't given has the text `false`.
    ensures serve_plain { (program file : Text)
        → AreTaken (command_words program serve_name (file ∷ codes "8080" ∷ [])) serve_name (λ rows.
        (text_of (codes "FILE") rows ≡ file) × (one_of (codes "PORT") rows ≡ Some (codes "8080"))
        × (one_of (codes "strict-changes") rows ≡ Some (codes "false"))) }
    ensures explain { (program code : Text)
        → AreTaken (command_words program explain_name (code ∷ [])) explain_name
        (λ rows. text_of (codes "CODE") rows ≡ code) }
    // An option may come before that word.
    ensures serve { (program file : Text) → AreTaken (serve_words program file) serve_name (λ rows.
        (text_of (codes "FILE") rows ≡ file) × (one_of (codes "PORT") rows ≡ Some (codes "65535"))
        × (one_of (codes "connections") rows ≡ Some (codes "9"))
        × (first_of (codes "changes") rows ≡ Some (codes "new"))
        × (first_of (codes "edition") rows ≡ Some (codes "2"))
        × (one_of (codes "sequence") rows ≡ Some (codes "7"))
        × (one_of (codes "strict-changes") rows ≡ Some (codes "true"))) }
    ensures ask_in { (program query : Text) → AreTaken (ask_words program query) ask_name (λ rows.
        (text_of (codes "QUERY") rows ≡ query) × (first_of (codes "form") rows ≡ Some (codes "json"))) }
    ensures check_within { (program root query answer proof : Text)
        → AreTaken (check_words program root query answer proof) check_name (λ rows.
        (text_of (codes "ROOT") rows ≡ root) × (text_of (codes "QUERYFILE") rows ≡ query)
        × (text_of (codes "ANSWERFILE") rows ≡ answer) × (text_of (codes "PROOFFILE") rows ≡ proof)
        × (one_of (codes "max-size") rows ≡ Some (codes "65536"))) }
    ensures fetch_within { (program root mirror query : Text)
        → AreTaken (fetch_words program root mirror query) fetch_name (λ rows.
        (text_of (codes "ROOT") rows ≡ root) × (text_of (codes "HOST:PORT") rows ≡ mirror)
        × (text_of (codes "QUERY") rows ≡ query) × (first_of (codes "form") rows ≡ Some (codes "xml"))
        × (one_of (codes "max-size") rows ≡ Some (codes "65536"))) }
    ensures query_within { (program root place query : Text)
        → AreTaken (query_words program root place query) query_name (λ rows.
        (text_of (codes "ROOT") rows ≡ root) × (text_of (codes "PLACE") rows ≡ place)
        × (text_of (codes "QUERY") rows ≡ query) × (first_of (codes "form") rows ≡ Some (codes "xml"))
        × (one_of (codes "max-bytes") rows ≡ Some (codes "65536"))) }
    // An option that may come several times has its texts in their order.
    ensures relay_with { (program root mirror : Text) → AreTaken (relay_words program root mirror) relay_name (λ rows.
        (text_of (codes "ROOT") rows ≡ root) × (text_of (codes "HOST:PORT") rows ≡ mirror)
        × (one_of (codes "LISTENPORT") rows ≡ Some (codes "65535"))
        × (all_of (codes "fallback") rows ≡ Some (codes "b:1" ∷ codes "c:2" ∷ []))
        × (first_of (codes "root-file") rows ≡ Some (codes "root"))
        × (one_of (codes "connections") rows ≡ Some (codes "9"))) }
{}

/// A law: `serve`, `check`, `fetch`, `query` and `relay` take each number below 2^64 as a budget, 0 too, and it is the number that
/// the text writes; a greater one they don't take.
pub fn budgets_are_numbers()
    ensures serve { (file : Text) → TakesBudget serve_name (file ∷ codes "80" ∷ []) (codes "0") 0
        × TakesBudget serve_name (file ∷ codes "80" ∷ []) (codes "18446744073709551615") 18446744073709551615
        × RefusesBudget serve_name (file ∷ codes "80" ∷ []) (codes "18446744073709551616") }
    ensures check { (root query answer proof : Text)
        → TakesBudget check_name (root ∷ query ∷ answer ∷ proof ∷ []) (codes "0") 0
        × TakesBudget check_name (root ∷ query ∷ answer ∷ proof ∷ []) (codes "18446744073709551615") 18446744073709551615
        × RefusesBudget check_name (root ∷ query ∷ answer ∷ proof ∷ []) (codes "18446744073709551616") }
    ensures fetch { (root mirror query : Text)
        → TakesBudget fetch_name (root ∷ mirror ∷ query ∷ []) (codes "0") 0
        × TakesBudget fetch_name (root ∷ mirror ∷ query ∷ []) (codes "18446744073709551615") 18446744073709551615
        × RefusesBudget fetch_name (root ∷ mirror ∷ query ∷ []) (codes "18446744073709551616") }
    ensures query { (root place query : Text)
        → TakesBudget query_name (root ∷ place ∷ query ∷ []) (codes "0") 0
        × TakesBudget query_name (root ∷ place ∷ query ∷ []) (codes "18446744073709551615") 18446744073709551615
        × RefusesBudget query_name (root ∷ place ∷ query ∷ []) (codes "18446744073709551616") }
    ensures relay { (root mirror : Text)
        → TakesBudget relay_name (root ∷ mirror ∷ codes "80" ∷ []) (codes "0") 0
        × TakesBudget relay_name (root ∷ mirror ∷ codes "80" ∷ []) (codes "18446744073709551615") 18446744073709551615
        × RefusesBudget relay_name (root ∷ mirror ∷ codes "80" ∷ []) (codes "18446744073709551616") }
{}
